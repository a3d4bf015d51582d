// A call from the code of its kind and the bytes of its fields.

ghost use Rattle.std.specs.Prelude.{◌≡◌, length};
ghost use Rattle.frames.specs.Kinds.{call_code};
ghost use Rattle.frames.specs.Fields.{spelled};
ghost use Rattle.frames.specs.Frames.{term_fields};
ghost use Rattle.frames.specs.Reading.{Decoded, Decodes};
ghost use Rattle.frames.specs.declared.kind.CallKind.TheVariants as kind;

use crate::call::Call;
use crate::kind::CallKind;
use yard::edit::{Edit, EntryTerms};

// One function a kind, its fields by name: a form of docs/DECISIONS.md.
fn open(fields: &[u8]) -> Call
    requires { length fields.now ≡ 1 }
    ensures { Decoded (call_code kind.Open) fields.now result }
{
    let [count] = fields else { unreachable() };
    Call::Edit(Edit::Open { count: *count })
}

fn raise(fields: &[u8]) -> Call
    requires { length fields.now ≡ 9 }
    ensures { Decoded (call_code kind.Raise) fields.now result }
{
    let [mast, x3, x2, x1, x0, y3, y2, y1, y0] = fields else {
        unreachable()
    };
    Call::Edit(Edit::Raise {
        mast: *mast,
        x: i32::from_be_bytes([*x3, *x2, *x1, *x0]),
        y: i32::from_be_bytes([*y3, *y2, *y1, *y0]),
    })
}

fn strike(fields: &[u8]) -> Call
    requires { length fields.now ≡ 1 }
    ensures { Decoded (call_code kind.Strike) fields.now result }
{
    let [mast] = fields else { unreachable() };
    Call::Edit(Edit::Strike { mast: *mast })
}

// The terms of a run, which are the last fields of two kinds.
fn terms_of(fields: &[u8]) -> EntryTerms
    requires { length fields.now ≡ 10 }
    ensures { spelled (term_fields result) ≡ fields.now }
{
    let [r1, r0, f3, f2, f1, f0, l3, l2, l1, l0] = fields else {
        unreachable()
    };
    EntryTerms {
        rate: u16::from_be_bytes([*r1, *r0]),
        fixed: u32::from_be_bytes([*f3, *f2, *f1, *f0]),
        limit: u32::from_be_bytes([*l3, *l2, *l1, *l0]),
    }
}

fn feeder(fields: &[u8]) -> Call
    requires { length fields.now ≡ 12 }
    ensures { Decoded (call_code kind.Feeder) fields.now result }
{
    let [mast, pillar, terms @ ..] = fields else {
        unreachable()
    };
    Call::Edit(Edit::Feeder {
        mast: *mast,
        pillar: *pillar,
        terms: terms_of(terms),
    })
}

fn link(fields: &[u8]) -> Call
    requires { length fields.now ≡ 12 }
    ensures { Decoded (call_code kind.Link) fields.now result }
{
    let [one, other, terms @ ..] = fields else {
        unreachable()
    };
    Call::Edit(Edit::Link {
        one: *one,
        other: *other,
        terms: terms_of(terms),
    })
}

fn dearest(fields: &[u8]) -> Call
    requires { length fields.now ≡ 1 }
    ensures { Decoded (call_code kind.Dearest) fields.now result }
{
    let [k] = fields else { unreachable() };
    Call::Dearest { k: *k }
}

fn nearest(fields: &[u8]) -> Call
    requires { length fields.now ≡ 2 }
    ensures { Decoded (call_code kind.Nearest) fields.now result }
{
    let [pillar, k] = fields else { unreachable() };
    Call::Nearest {
        pillar: *pillar,
        k: *k,
    }
}

// The call of the kind with this code and of these fields; each kind goes with one length.
pub(crate) fn decode(code: u8, fields: &[u8]) -> Option<Call>
    ensures { Decodes code fields.now result }
{
    match CallKind::try_from(code).ok()? {
        CallKind::Open if fields.len() == 1 => Some(open(fields)),
        CallKind::Raise if fields.len() == 9 => Some(raise(fields)),
        CallKind::Strike if fields.len() == 1 => Some(strike(fields)),
        CallKind::Feeder if fields.len() == 12 => Some(feeder(fields)),
        CallKind::Link if fields.len() == 12 => Some(link(fields)),
        CallKind::Place if fields.len() == 0 => Some(Call::Place),
        CallKind::Why if fields.len() == 0 => Some(Call::Why),
        CallKind::Dearest if fields.len() == 1 => Some(dearest(fields)),
        CallKind::Nearest if fields.len() == 2 => Some(nearest(fields)),
        _ => None,
    }
}
