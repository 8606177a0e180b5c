// An expression's line taken into the loader's array of expressions. A function is given the text, the number of the line's form and the places of its values, and
// is lent the array. It answers whether the line is in range: where it is, the array has the line, where not, it is as it was.
// stays: may not change: line_at, which tells a line by the number of its form, `row` here, and the places of its values
#![tactic(auto)]

ghost use Rattle.std.specs.Prelude.{◌≡◌, Bool, ◌&&◌, [], ◌∷◌, ◌++◌, ℕ, ◌-◌, ◌≤◌, ℤ, pos, length, drop};
ghost use Rattle.lists.specs.Lists.{on_opt};
ghost use Rattle.values.specs.Values.{in_range};
ghost use Rattle.programs.specs.Sizes.{EXPRS};
ghost use Rattle.programs.specs.declared.Expr.{Expr};
ghost use Rattle.programs.specs.declared.Leaf.TheVariants.{Int as int_val, Bool as bool_val};
ghost use Rattle.programs.specs.declared.Expr.TheVariants.{Leaf as leaf};
ghost use Rattle.texts.specs.Numbers.{signed};
ghost use Rattle.texts.specs.Forms.{expr_line, is_one, zero_or_one};
ghost use Rattle.texts.specs.Reading.{next};
ghost use Rattle.tabled.specs.Tabled.{expr_row, expr_table};
ghost use Rattle.readers.specs.Words.{word};
ghost use Rattle.numerals.specs.Numerals.{cut};
ghost use Rattle.spoken.specs.Spoken.{line_at};
ghost use Rattle.spoken.specs.Took.{Took};
ghost use Rattle.putting.specs.Asked.{ExprRoom};
ghost use Rattle.taking_exprs.specs.Lines.{plain_row};
ghost use Rattle.taking_exprs.specs.Held.{ExprHeld};

use codes::code;
use operands::operand;
use putting::put_expr;
use spoken::{is_next, number_at};
use tables::Program;
use values::Value;

// The `val` at a place of the text, cut; 0 where there is none.
// stays: no plainer: it is asked of a line whose form was found, and that has one
fn val_at(s: &[u8], at: usize) -> i64
    ensures { result ≡ cut (on_opt (signed (word (drop at s.now))) (pos 0) (λ z. z)) }
{
    numerals::signed(readers::field(s, at)).unwrap_or(0)
}

// An int whose `val`, cut, is z.
fn take_int(z: i64, exprs: &mut [u32; 3 * (Program::EXPRESSIONS + 1)]) -> bool
    requires { ExprRoom exprs.old }
    ensures { (h : ExprRoom exprs.old) (v : ℤ) → z ≡ cut v
        → Took result (in_range v) (exprs.new ≡ expr_table (h.rows ++ leaf (int_val v) ∷ [])) (exprs.new ≡ exprs.old) }
{
    let Ok(v) = i32::try_from(z) else {
        return false;
    };
    put_expr(exprs, 1, (code(Value::Int(v)) % 4294967296) as u32, 0);
    true
}

// A bool whose `val`, cut, is z.
fn take_bool(z: i64, exprs: &mut [u32; 3 * (Program::EXPRESSIONS + 1)]) -> bool
    requires { ExprRoom exprs.old }
    ensures { (h : ExprRoom exprs.old) (v : ℤ) → z ≡ cut v
        → Took result (zero_or_one v) (exprs.new ≡ expr_table (h.rows ++ leaf (bool_val (is_one v)) ∷ [])) (exprs.new ≡ exprs.old) }
{
    if z != 0 && z != 1 {
        return false;
    }
    put_expr(exprs, 2, u32::from(z == 1), 0);
    true
}

// The kind of the expressions in each form, as their rows have it.
// stays: the C interface: the tables have a number for the kind of an expression
const KINDS: [u32; 14] = [10, 11, 12, 13, 8, 9, 1, 2, 3, 4, 5, 6, 0, 7];

// The row of an expression without a `val`.
fn put_plain(
    s: &[u8],
    row: usize,
    places: [usize; 5],
    exprs: &mut [u32; 3 * (Program::EXPRESSIONS + 1)],
)
    requires expr_room { ExprRoom exprs.old }
    requires le_row { (10 ≤ row) × (row ≤ 23) }
    ensures { (h : ExprRoom exprs.old) (e : Expr) → expr_row e ≡ plain_row s.now places (row - 10)
        → exprs.new ≡ expr_table (h.rows ++ e ∷ []) }
{
    let [_, a, b, ..] = places;
    let k = row - 10;
    let x = operand(s, a, k <= 8);
    let y = operand(s, b, k <= 3);
    put_expr(exprs, KINDS[k], u32::from(x), u32::from(y));
}

// An expression.
pub fn take_expr(
    s: &[u8],
    row: usize,
    places: [usize; 5],
    exprs: &mut [u32; 3 * (Program::EXPRESSIONS + 1)],
) -> bool
    requires expr_held { ExprHeld exprs.old }
    requires le_row { (10 ≤ row) × (row ≤ 23) }
    ensures { (h : ExprHeld exprs.old) (i : ℕ) (b : Bool) (e : Expr) → line_at s.now places row ≡ expr_line i b e
        → Took result (next EXPRS (length h.rows) i && b) (exprs.new ≡ expr_table (h.rows ++ e ∷ [])) (exprs.new ≡ exprs.old) }
{
    let [own, val, ..] = places;
    let n = exprs[0] as usize;
    if !is_next(Program::EXPRESSIONS, n, number_at(s, own)) {
        return false;
    }
    match row {
        16 => take_int(val_at(s, val), exprs),
        17 => take_bool(val_at(s, val), exprs),
        _ => {
            put_plain(s, row, places, exprs);
            true
        }
    }
}
