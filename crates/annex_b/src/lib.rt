// The form of an H.264 payload: whether it is made of units with their length in front, and the conversion of such units to Annex B.
//
// `is_avc_format` is yes exactly where R100 says so, in its words (specs/Format.antt). `avc_to_annex_b_into` promises its number,
// its count and every byte of the output for every input (specs/AnnexB.antt), and the output is never longer than the input. No public
// call asks anything of its caller.
#![tactic(auto)]

pub mod units; // the units that a payload is made of

ghost use Rattle.std.specs.Prelude.{◌≡◌, [], ◌∷◌, ◌++◌, ◌+◌, ◌-◌, ◌≤◌, ltb, length, take, drop};
ghost use Rattle.std.proofs.lemmas.List.Edits.{sets};
ghost use Rattle.lent.specs.Outcome.{Outcome, answer_of, lent_after};
ghost use Rattle.annex_b.specs.Format.{start_code, made_of_units_of, is_avc_format_of};
ghost use Rattle.annex_b.specs.AnnexB.{count_of, annex_b_of, annex_number};

use crate::units::Cursor;
use lent::Answer;
use lent::refused::Refusal;

// What stands in front of a unit in Annex B.
const START_CODE: [u8; 4] = [0, 0, 0, 1];

// Whether s is units and nothing else, none of them empty.
fn made_of_units(s: &[u8]) -> bool
    ensures { result ≡ made_of_units_of s.now }
{
    let mut c = Cursor::new();
    while let Some(unit) = c.step(s) {
        if unit.start == unit.end {
            return false; // a length of 0
        }
        c = unit.next;
    }
    c.at == s.len()
}

// Whether a payload is length-prefixed (the Rust's is_avc_format).
pub fn is_avc_format(data: &[u8]) -> bool
    ensures { result ≡ is_avc_format_of «data».now }
{
    !data.is_empty()
        && !data.starts_with(&[0, 0, 1])
        && !data.starts_with(&START_CODE)
        && made_of_units(data)
}

// What the conversion writes, counted: a start code is as long as the length that it replaces, so this is where the units end.
fn count(s: &[u8]) -> usize
    ensures { result ≡ count_of s.now }
{
    let mut c = Cursor::new();
    while let Some(unit) = c.step(s) {
        c = unit.next;
    }
    c.at
}

// A unit stands in the output where it stood in the input.
fn put_unit(s: &[u8], out: &mut [u8], at: usize, end: usize)
    requires { (at + 4 ≤ end) × (end ≤ length s.now) × (end ≤ length out.old) }
    ensures { out.new ≡ sets out.old at (start_code ++ take (end - (at + 4)) (drop (at + 4) s.now)) }
{
    let start = at + 4;
    out[at..start].copy_from_slice(&START_CODE);
    lent::long::copy(&mut out[start..end], &s[start..end]);
}

// The units in Annex B, into an output that has room for them. It answers how many bytes were written.
fn annex_b(s: &[u8], out: &mut [u8]) -> usize
    requires { count_of s.now ≤ length out.old }
    ensures { (result ≡ count_of s.now) × (out.new ≡ annex_b_of s.now out.old) }
{
    let mut c = Cursor::new();
    while let Some(unit) = c.step(s) {
        put_unit(s, out, c.at, unit.end);
        c = unit.next;
    }
    c.at // where the units end
}

// Whether an output of n bytes is too short. What is written is never longer than the input, so where the output is as long nothing is
// counted, and the units are walked once, not twice.
#[tactic(auto, using(crate::proofs::AnnexB::annex_never_longer))]
fn short(s: &[u8], n: usize) -> bool
    ensures { result ≡ ltb n (count_of s.now) }
{
    n < s.len() && n < count(s)
}

// The units of a length-prefixed payload in Annex B (the Rust's avc_to_annex_b_into, into a lent buffer: 6 where it is too short).
pub fn avc_to_annex_b_into(data: &[u8], out: &mut [u8]) -> Answer
    ensures { Outcome (answer_of (annex_number «data».now out.old) (count_of «data».now))
        (lent_after (annex_number «data».now out.old) out.old (annex_b_of «data».now out.old) ∷ [])
        result (out.new ∷ []) }
{
    if short(data, out.len()) {
        return Answer::refused(Refusal::OutputShort);
    }
    let n = annex_b(data, out);
    Answer::done(n)
}
