// The head statement: by the statement, the function of its rule. All tests of a rule come before its first store.
#![tactic(auto)]

ghost use Rattle.engine.specs.Engine.{Performed};
ghost use Rattle.heads.specs.Asked.{HeadAskedOf};
ghost use Rattle.heads.specs.Heads.{head_outcome};

use configs::Flat;
use engine::Outcome;
use index::Index;
use rules::Rule;
use tables::{Head, Program};

// THE HEAD of the machine in room k, under the bits w.
pub fn head_on(program: &Program, index: &Index, flat: &mut Flat, k: usize, w: u64) -> Outcome
    requires { HeadAskedOf program.now index.now flat.old k w }
    ensures { (a : HeadAskedOf program.now index.now flat.old k w) → Performed flat.old (head_outcome a) result flat.new }
{
    let n = flat.counts[k] - 1;
    let s = usize::from(flat.parts[k * Program::ROW + n]);
    let h = terms::stmt_at(&program.stmts, s);
    match h {
        Head::New(x, kind, z, n) => creating::new_on(
            program,
            &index.places,
            &mut flat.ids,
            &mut flat.kinds,
            &mut flat.depths,
            &mut flat.states,
            &mut flat.values,
            &mut flat.counts,
            &mut flat.parts,
            &flat.held,
            &mut flat.next,
            k,
            x,
            kind.0,
            z,
            n,
            w,
        ),
        Head::Delete => {
            deleting::delete_on(flat, k);
            Ok(Rule::DELETE)
        }
        Head::Send(t, e, x) => sending::send_on(
            program,
            &index.places,
            &flat.ids,
            &flat.values,
            &mut flat.counts,
            &mut flat.parts,
            &flat.held,
            &mut flat.waiting,
            &mut flat.pairs,
            k,
            t,
            e,
            x,
            w,
        ),
        _ => owning::own_on(program, index, flat, k, h, w),
    }
}
