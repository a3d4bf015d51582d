// Calls and answers written as lines into the caller's buffer, with how many bytes that takes: nothing is allocated.

ghost use Rattle.std.specs.Prelude.{◌≡◌, ◌+◌, ◌<◌, ◌≤◌, [], ◌∷◌, ◌++◌, length, MatchOption};
ghost use Rattle.frames.specs.Kinds.{call_code, answer_code};
ghost use Rattle.frames.specs.Digits.{digit_char, hex};
ghost use Rattle.frames.specs.Fields.{spell_field, spelled};
ghost use Rattle.frames.specs.Frames.{call_bytes, answer_bytes, line_text, run_fields, term_fields, told_fields, edit_bytes};
ghost use Rattle.frames.specs.Writing.{Wrote};

use crate::answer::{Answer, Told};
use crate::bytes::{FrameBytes, byte_sum};
use crate::call::Call;
use crate::field::Field;
use crate::field::Field::{Byte, Half, Signed, Word};
use crate::kind::{AnswerKind, CallKind, RunClass};
use arrayvec::ArrayVec;
use yard::edit::{Edit, EntryTerms};
use yard::force::Run;

// A field more, its highest byte first. One arm a type, since no trait of the library has `to_be_bytes`, whose results differ in length.
fn push_field(bytes: &mut FrameBytes, field: Field)
    requires { length bytes.old.items + length (spell_field field) ≤ 32 }
    ensures { bytes.new.items ≡ bytes.old.items ++ spell_field field }
{
    let added = match field {
        Byte(n) => bytes.try_extend_from_slice(&n.to_be_bytes()),
        Half(n) => bytes.try_extend_from_slice(&n.to_be_bytes()),
        Word(n) => bytes.try_extend_from_slice(&n.to_be_bytes()),
        Signed(n) => bytes.try_extend_from_slice(&n.to_be_bytes()),
    };
    added.unwrap();
}

// The code of a kind, and some fields.
fn coded(code: u8, fields: &[Field]) -> FrameBytes
    requires { length (spelled fields.now) < 32 }
    ensures { result.items ≡ code ∷ spelled fields.now }
{
    let mut bytes = FrameBytes::new();
    bytes.push(code);
    for field in fields {
        push_field(&mut bytes, *field);
    }
    bytes
}

// A run with its terms, as the bytes of an edit.
fn run_bytes(kind: CallKind, one: u8, other: u8, terms: EntryTerms) -> FrameBytes
    ensures { result.items ≡ call_code kind ∷ one ∷ other ∷ spelled (term_fields terms) }
{
    let EntryTerms { rate, fixed, limit } = terms;
    coded(
        kind as u8,
        &[Byte(one), Byte(other), Half(rate), Word(fixed), Word(limit)],
    )
}

// The bytes of an edit before its check byte.
fn edit_frame(edit: Edit) -> FrameBytes
    ensures { result.items ≡ edit_bytes edit }
{
    match edit {
        Edit::Open { count } => coded(CallKind::Open as u8, &[Byte(count)]),
        Edit::Raise { mast, x, y } => coded(
            CallKind::Raise as u8,
            &[Byte(mast), Signed(x), Signed(y)],
        ),
        Edit::Strike { mast } => coded(CallKind::Strike as u8, &[Byte(mast)]),
        Edit::Feeder {
            mast,
            pillar,
            terms,
        } => run_bytes(CallKind::Feeder, mast, pillar, terms),
        Edit::Link { one, other, terms } => run_bytes(CallKind::Link, one, other, terms),
    }
}

// A run's class and its ends.
fn fields_of_run(run: Run) -> [Field; 3]
    ensures { result ≡ run_fields run }
{
    match run {
        Run::Feeder { mast, pillar } => [Byte(RunClass::Feeder as u8), Byte(mast), Byte(pillar)],
        Run::Link { one, other } => [Byte(RunClass::Link as u8), Byte(one), Byte(other)],
    }
}

// A chain, its pillars last; nothing where it has no room.
fn told_bytes(kind: AnswerKind, told: Told) -> Option<FrameBytes>
    ensures { let bytes = answer_code kind ∷ (spelled (told_fields told.entry) ++ told.entry.pillars.now) in MatchOption result (32 < length bytes) (λ b. b.items ≡ bytes) }
{
    let Told {
        from,
        to,
        gap,
        total,
        pillars,
    } = told;
    let count = u8::try_from(pillars.len()).ok()?;
    let mut bytes = coded(
        kind as u8,
        &[Byte(from), Byte(to), Word(gap), Word(total), Byte(count)],
    );
    bytes.try_extend_from_slice(pillars).ok()?;
    Some(bytes)
}

// `char::from_digit` and the crate `hex` give small letters.
const DIGITS: &[u8; 16] = b"0123456789ABCDEF";

// The digit of a value.
fn letter(value: u8) -> u8
    requires { value < 16 }
    ensures { result ≡ digit_char value }
{
    DIGITS[usize::from(value)]
}

// A frame as a line with its line feed.
fn line_of(frame: &[u8]) -> ArrayVec<u8, 65>
    requires { length frame.now ≤ 32 }
    ensures { result.items ≡ hex frame.now ++ (10 ∷ []) }
{
    let mut line = ArrayVec::new();
    for byte in frame {
        line.push(letter(*byte / 16));
        line.push(letter(*byte % 16));
    }
    line.push(b'\n');
    line
}

// Some bytes, closed by their check byte, as a line at the head of `out`, and how many bytes that takes.
// Inlined at each frame: how long a frame is is known there, and a frame of no fields is a constant line.
#[inline]
fn put_line(mut bytes: FrameBytes, out: &mut [u8]) -> Option<usize>
    ensures { Wrote (line_text bytes.items) out.old result out.new }
{
    let check = 0u8.wrapping_sub(byte_sum(bytes.as_slice()));
    bytes.try_push(check).ok()?;
    let line = line_of(bytes.as_slice());
    let count = line.len();
    if out.len() < count {
        return None;
    }
    out[..count].copy_from_slice(line.as_slice());
    Some(count)
}

// A call as a line at the head of `out`; the bytes that it takes, or nothing where it has no room.
pub fn write_call(call: Call, out: &mut [u8]) -> Option<usize>
    ensures { Wrote (line_text (call_bytes call)) out.old result out.new }
{
    match call {
        Call::Edit(edit) => put_line(edit_frame(edit), out),
        Call::Place => put_line(coded(CallKind::Place as u8, &[]), out),
        Call::Why => put_line(coded(CallKind::Why as u8, &[]), out),
        Call::Dearest { k } => put_line(coded(CallKind::Dearest as u8, &[Byte(k)]), out),
        Call::Nearest { pillar, k } => {
            let bytes = coded(CallKind::Nearest as u8, &[Byte(pillar), Byte(k)]);
            put_line(bytes, out)
        }
    }
}

// An answer as a line at the head of `out`; the bytes that it takes, or nothing where it has no room.
pub fn write_answer(answer: Answer, out: &mut [u8]) -> Option<usize>
    ensures { Wrote (line_text (answer_bytes answer.entry)) out.old result out.new }
{
    match answer {
        Answer::Taken => put_line(coded(AnswerKind::Taken as u8, &[]), out),
        Answer::Refused { number, place } => {
            let bytes = coded(AnswerKind::Refused as u8, &[Byte(number), Byte(place)]);
            put_line(bytes, out)
        }
        Answer::Level { cents } => put_line(coded(AnswerKind::Level as u8, &[Word(cents)]), out),
        Answer::Site { pillar, hx, hy } => {
            let bytes = coded(
                AnswerKind::Site as u8,
                &[Byte(pillar), Signed(hx), Signed(hy)],
            );
            put_line(bytes, out)
        }
        Answer::Floor => put_line(coded(AnswerKind::Floor as u8, &[]), out),
        Answer::Fixed { run } => put_line(coded(AnswerKind::Fixed as u8, &fields_of_run(run)), out),
        Answer::Chain(told) => put_line(told_bytes(AnswerKind::Chain, told)?, out),
        Answer::Clash(told) => put_line(told_bytes(AnswerKind::Clash, told)?, out),
        Answer::RunPriced { run, length, cents } => {
            let [class, one, other] = fields_of_run(run);
            let fields = [class, one, other, Word(length), Word(cents)];
            put_line(coded(AnswerKind::RunPriced as u8, &fields), out)
        }
        Answer::MastSeen { mast, length } => {
            let bytes = coded(AnswerKind::MastSeen as u8, &[Byte(mast), Word(length)]);
            put_line(bytes, out)
        }
    }
}
