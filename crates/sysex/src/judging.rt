// The tests of a body, in their order.
ghost use Rattle.std.specs.Prelude.{◌≡◌, ◌<◌, length};
ghost use Rattle.programs.specs.Held.{sent_for};
ghost use Rattle.sysex.specs.Forms.{version_place, body_length, longest, type_for};
ghost use Rattle.sysex.specs.Judging.{judged_by, form_tests, form_order, judge_of};
ghost use Rattle.sysex.specs.Private.{behind, opcode_byte, identity_in, form_in, target_in, channel_test, length_test, program_test, version_test, halves_test};

use crate::{Check, Order, Settings};
use halves::HALF;
use kinds::Kind;
use programs::{PROGRAMS, Target};

// The bytes of the opcodes, and of the types (`typed` in code: `type` is a word of the language).
const REQUEST: u8 = 0;

pub const DUMP: u8 = 1;

const PROGRAM: u8 = 0;

const EDIT: u8 = 1;

const ALL: u8 = 2;

pub const VERSION: u8 = 0;

// The highest program.
const LAST: u8 = PROGRAMS as u8 - 1;

#[derive(Clone, Copy, Debug, PartialEq, Eq)]
enum Opcode {
    Request,
    Dump,
}

impl TryFrom<u8> for Opcode {
    ghost use Rattle.std.specs.Prelude.{◌≡◌};
    ghost use Rattle.sysex.specs.Private.{opcode_in};

    type Error = Check;

    ghost try_from_gives = { λ byte opcode. opcode ≡ opcode_in byte };

    fn try_from(byte: u8) -> Result<Opcode, Check> {
        match byte {
            REQUEST => Ok(Opcode::Request),
            DUMP => Ok(Opcode::Dump),
            _ => Err(Check::OpcodeAndType),
        }
    }
}

// What a body asks for, or the first check that fails.
pub fn judge(body: &[u8], kind: Kind, settings: Settings) -> Result<Order, Check>
    ensures { result ≡ judge_of kind settings body.now }
{
    if let Some(cc) = identity_in(body) {
        channel_judged(settings, cc)?;
        return Ok(Order::Identify(cc));
    }
    if body.starts_with(&kind.header()) {
        form_judged(body, kind)
    } else {
        Err(Check::Ours(kind.device()))
    }
}

// The cc of a body that is an identity request.
fn identity_in(body: &[u8]) -> Option<u8>
    ensures { result ≡ identity_in body.now }
{
    match body {
        [0xF0, 0x7E, cc, 0x06, 0x01] if *cc <= 0x7F => Some(*cc),
        _ => None,
    }
}

fn channel_judged(settings: Settings, cc: u8) -> Result<(), Check>
    ensures { result ≡ behind (channel_test settings cc) tt }
{
    if cc == 0x7F || settings.hears(cc) {
        Ok(())
    } else {
        Err(Check::Channel(settings.channel))
    }
}

// A body that begins with the header.
fn form_judged(body: &[u8], kind: Kind) -> Result<Order, Check>
    ensures { result ≡ judged_by (form_tests kind body.now) (form_order body.now) }
{
    let (opcode, target) = form_in(body)?;
    length_judged(body.len(), kind, opcode, target)?;
    program_judged(target)?;
    match opcode {
        Opcode::Request => Ok(Order::Send(target)),
        Opcode::Dump => {
            version_judged(body, target)?;
            data_judged(body, target)?;
            Ok(Order::Store(target))
        }
    }
}

// The opcode, and what is named. A body that ends before its program is too short: its length is asked for first.
fn form_in(body: &[u8]) -> Result<(Opcode, Target), Check>
    ensures { result ≡ form_in body.now }
{
    match body {
        [_, _, _, _, _, opcode, typed, rest @ ..] => {
            let opcode = Opcode::try_from(*opcode)?;
            let target = target_in(*typed, rest.first().copied().unwrap_or(0))?;
            Ok((opcode, target))
        }
        _ => Err(Check::OpcodeAndType),
    }
}

fn target_in(typed: u8, program: u8) -> Result<Target, Check>
    ensures { result ≡ target_in typed program }
{
    match typed {
        PROGRAM => Ok(Target::One(program)),
        EDIT => Ok(Target::Edit),
        ALL => Ok(Target::All),
        _ => Err(Check::OpcodeAndType),
    }
}

// The type of what is named.
pub fn type_for(target: Target) -> u8
    ensures { result ≡ type_for target }
{
    match target {
        Target::One(_) => PROGRAM,
        Target::Edit => EDIT,
        Target::All => ALL,
    }
}

fn length_judged(count: usize, kind: Kind, opcode: Opcode, target: Target) -> Result<(), Check>
    ensures { result ≡ behind (length_test kind (opcode_byte opcode) (type_for target) count) tt }
{
    let long = body_length(kind, true, opcode, target);
    let shortest = body_length(kind, !kind.has_spare(), opcode, target);
    if count == long || count == shortest {
        Ok(())
    } else {
        Err(Check::Length(long as u16 + 1, shortest as u16 + 1))
    }
}

// The length of a body of this opcode and type, of a dump that is long or short.
fn body_length(kind: Kind, long: bool, opcode: Opcode, target: Target) -> usize
    ensures { result ≡ body_length kind long (opcode_byte opcode) (type_for target) }
{
    let version = version_place(type_for(target));
    match opcode {
        Opcode::Request => version,
        Opcode::Dump => version + 1 + 2 * sent_count(kind, long, target),
    }
}

// The whole length of the longest message: a long all programs dump.
pub fn longest(kind: Kind) -> usize
    ensures { result ≡ longest kind }
{
    body_length(kind, true, Opcode::Dump, Target::All) + 1
}

// How many bytes a dump has: of each program all, or all but the spare one.
fn sent_count(kind: Kind, long: bool, target: Target) -> usize
    ensures { result ≡ sent_for kind long target }
{
    let size = kind.size() as usize;
    let sent = if long { size } else { size - 1 };
    target.slots() * sent
}

fn program_judged(target: Target) -> Result<(), Check>
    ensures { result ≡ behind (program_test target) tt }
{
    match target {
        Target::One(program) if LAST < program => Err(Check::Program(LAST)),
        _ => Ok(()),
    }
}

fn version_judged(body: &[u8], target: Target) -> Result<(), Check>
    requires { version_place (type_for target) < length body.now }
    ensures { result ≡ behind (version_test (type_for target) body.now) tt }
{
    if body[version_place(type_for(target))] == VERSION {
        Ok(())
    } else {
        Err(Check::Version(VERSION))
    }
}

fn data_judged(body: &[u8], target: Target) -> Result<(), Check>
    requires { version_place (type_for target) < length body.now }
    ensures { result ≡ behind (halves_test (type_for target) body.now) tt }
{
    let place = version_place(type_for(target)) + 1;
    if halves::all_at_most(&body[place..], HALF) {
        Ok(())
    } else {
        Err(Check::HalfBytes(HALF))
    }
}

// Where the version of a dump stands, one place before its data.
// It takes a byte, and not a `Target`: `version_place` is promised of every type.
pub fn version_place(typed: u8) -> usize
    ensures { result ≡ version_place typed }
{
    if typed == PROGRAM { 8 } else { 7 }
}
