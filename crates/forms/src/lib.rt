// Which of the 44 forms a line is in, and the places in the text of its values. The forms stand in crates/texts/specs/Forms.antt; what is told of a line
// stands in specs/Recognised.antt.
#![tactic(auto)]

ghost use Rattle.std.specs.Prelude.{◌≡◌, ◌<◌, MatchOption};
ghost use Rattle.texts.specs.Forms.{forms};
ghost use Rattle.shapes.specs.Lines.{LineAt};
ghost use Rattle.forms.specs.Rows.{row_of, formless};
ghost use Rattle.forms.specs.Trying.{Tried, alike};
ghost use Rattle.forms.specs.Recognised.{Recognised};

use scans::Taken;

// The number of a form, counted from 0, and the places of the values of its holes, in order.
// stays: may not change: line_at, which tells a line by the number of its form and the places of its values
#[derive(Clone, Copy)]
pub struct Form {
    pub row: usize,
    pub at: [usize; 5],
}

// The places where the forms begin.
// stays: no plainer: the forms in one text are `text (names forms)` as they stand; 44 texts would each need an equation
const BEGINS: [usize; 44] = [
    0, 18, 36, 53, 72, 88, 98, 119, 139, 161, 180, 204, 228, 252, 275, 295, 315, 337, 360, 382,
    399, 415, 431, 447, 464, 496, 513, 532, 550, 569, 608, 644, 676, 702, 735, 771, 803, 822, 858,
    875, 892, 908, 916, 932,
];

// Whether the form that begins at b of t and the line that begins at a of s begin with the same byte.
fn begins_alike(t: &[u8], b: usize, s: &[u8], a: usize) -> bool
    ensures { result ≡ alike t.now b s.now a }
{
    b < t.len() && a < s.len() && t[b] == s[a]
}

// The first of the forms t that the line from a to e is in. A form that begins with another byte than the line is passed over.
fn first_form(t: &[u8], s: &[u8], a: usize, e: usize, first: Taken) -> Option<Form>
    requires { Tried t.now s.now e first }
    ensures { MatchOption result (formless ≡ row_of forms s.now a e) (λ r. (r ≡ row_of forms s.now a e) × (r.row < 44)) }
{
    for (row, &begin) in BEGINS.iter().enumerate() {
        if begins_alike(t, begin, s, a) {
            if let Some(at) = scans::scan(t, begin, s, a, e, first) {
                return Some(Form { row, at });
            }
        }
    }
    None
}

// The form of the line from a to e. The word behind its first '=' is looked at once for all forms.
pub fn form_of(s: &[u8], a: usize, e: usize) -> Option<Form>
    requires { LineAt s.now a e }
    ensures { MatchOption result (Recognised s.now a e formless) (λ r. Recognised s.now a e r × (r.row < 44)) }
{
    let k = numerals::until(s, b'=', a, e);
    let q = if k < e { k + 1 } else { k };
    let first = scans::take(s, q, b'#');
    first_form(
        b"event=# type=void\nevent=# type=bool\nevent=# type=int\nevent=# type=event\nevent=# type=id\nmachine=#\nvar=# of=# type=bool\nvar=# of=# type=int\nvar=# of=# type=event\nvar=# of=# type=id\nexpr=# kind=add a=# b=#\nexpr=# kind=sub a=# b=#\nexpr=# kind=and a=# b=#\nexpr=# kind=or a=# b=#\nexpr=# kind=not a=#\nexpr=# kind=neg a=#\nexpr=# kind=int val=~\nexpr=# kind=bool val=~\nexpr=# kind=var var=#\nexpr=# kind=this\nexpr=# kind=msg\nexpr=# kind=arg\nexpr=# kind=bot\nexpr=# kind=star\nstmt=# kind=assign var=# expr=#\nstmt=# kind=skip\nstmt=# kind=delete\nstmt=# kind=leave\nstmt=# kind=return\nstmt=# kind=new var=# machine=# init=%\nstmt=# kind=send to=# event=# arg=#\nstmt=# kind=raise event=# arg=#\nstmt=# kind=assert expr=#\nstmt=# kind=seq first=# second=#\nstmt=# kind=if cond=# then=# else=#\nstmt=# kind=while cond=# body=#\naction=# of=# do=#\nstate=# of=# defer=@ entry=# exit=#\nstep=# on=# to=#\ncall=# on=# to=#\nact=# on=# do=#\nstart=#\nchoice=# bits=#\nchoice=#\n",
        s,
        a,
        e,
        first,
    )
}
