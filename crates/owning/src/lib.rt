// The heads whose rules touch only the machine itself: by the head, the function of its rule.
#![tactic(auto)]

ghost use Rattle.std.specs.Prelude.{◌≡◌};
ghost use Rattle.storing.specs.Stores.{with_stored};
ghost use Rattle.owning.specs.Owning.{OwnAskedOf, Owned};

use answers::Answer;
use configs::Flat;
use engine::Outcome;
use index::Index;
use stacks::{top_map, top_state};
use tables::{Head, Program};

// THE HEAD h of the machine in room k, under the bits w. (`new`, `delete` and `send` touch more than the machine, and no row begins with a seq.)
pub fn own_on(
    program: &Program,
    index: &Index,
    flat: &mut Flat,
    k: usize,
    h: Head,
    w: u64,
) -> Outcome
    requires { OwnAskedOf program.now index.now flat.old k w h }
    ensures owned { (a : OwnAskedOf program.now index.now flat.old k w h) → Owned a result flat.new.values flat.new.counts flat.new.parts flat.new.held }
    ensures others { flat.new ≡ with_stored flat.old flat.new.values flat.new.counts flat.new.parts flat.new.held }
{
    match h {
        Head::Skip => statements::skip_on(
            &program.stmts,
            &mut flat.counts,
            &mut flat.parts,
            &flat.held,
            k,
        ),
        Head::Assign(x, e) => storing::assign_on(
            program,
            &index.places,
            &mut flat.values,
            &mut flat.counts,
            &mut flat.parts,
            &flat.held,
            k,
            x,
            e,
            w,
        ),
        Head::Raise(e, x) => {
            let b = top_map(&flat.depths, k);
            let n = top_state(&flat.depths, &flat.states, k);
            raising::raise_on(
                program,
                index,
                &flat.maps,
                &mut flat.values,
                &mut flat.counts,
                &mut flat.parts,
                &mut flat.held,
                k,
                b,
                n,
                e,
                x,
                w,
            )
        }
        Head::Leave => statements::leave_on(&mut flat.counts, &mut flat.parts, &mut flat.held, k),
        Head::Return => {
            let n = top_state(&flat.depths, &flat.states, k);
            storing::return_on(
                program,
                &mut flat.counts,
                &mut flat.parts,
                &mut flat.held,
                k,
                n,
            )
        }
        Head::Assert(e) => statements::assert_on(
            &program.exprs,
            &index.places,
            &flat.values,
            &mut flat.counts,
            &mut flat.parts,
            &flat.held,
            k,
            e,
            w,
        ),
        Head::New(_, _, _, _) | Head::Delete | Head::Send(_, _, _) | Head::Seq(_, _) => {
            Err(Answer::NotAccepted)
        }
        Head::If(e, x, y) => statements::if_on(
            program,
            &index.places,
            &flat.values,
            &mut flat.counts,
            &mut flat.parts,
            &flat.held,
            k,
            e,
            x,
            y,
            w,
        ),
        Head::While(e, x) => statements::while_on(
            program,
            &index.places,
            &flat.values,
            &mut flat.counts,
            &mut flat.parts,
            &flat.held,
            k,
            e,
            x,
            w,
        ),
    }
}
