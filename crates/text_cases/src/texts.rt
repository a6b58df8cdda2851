//! What is told of texts of bundles: the first fault, or the bundle.

ghost use Rattle.std.specs.Prelude.{◌≤◌, IfOk, length};
ghost use Rattle.micro_isa.specs.Formed.{IsFormedBundle};

use asm_lines::{BundleFault, kind_text};
use asm_text::read_bundle;
use micro_isa::{AluOp, Bundle, Channel, Instr, LONGEST_TEXT, Line, PortUse, Program, Test, VReg};
use micro_kit::{put_number, read_number};
use std::alloc::Global;
use std::test::Fail;

/// The kind of the first fault of a text (`ok` where it is a bundle), its line, and the text: with `|` at the ends of
/// its lines. `*N` stands for N lines of the rest of its line, in which `@` is the number of the line and `;` a
/// newline; `+N` for N times the rest of its line.
type Row = (&'static [u8], u32, &'static [u8]);

const ROWS: [Row; 87] = [
    (b"ok", 0, b"file 1|context a|halt"),
    (
        b"ok",
        0,
        b"# a comment|file,0x4 # four| memory,007|\tinput rx port 15 1024|output tx port 0|inner c 1|words rx 1, 0xff 4294967295|context a|top: li x,,5#|  jmp top|context b|halt",
    ),
    (
        b"ok",
        0,
        b"file 128|memory 65536|context nnnnnnnnnnnnnnnnnnnnnnnnnnnnnnnn|nnnnnnnnnnnnnnnnnnnnnnnnnnnnnnnn: halt",
    ),
    (b"byte", 1, b"file 1\r|context a|halt"),
    (b"byte", 2, b"file 1|# \xc3\xa9|context a|halt"),
    (b"byte", 3, b"file 1|context a|\x7f|halt"),
    (b"byte", 3, b"file 1|context a|foo \x00|halt"),
    (b"directive", 2, b"file 1|top: yield|context a|halt"),
    (b"directive", 1, b"yield|context a|halt"),
    (b"directive", 3, b"file 1|context a|file 1|halt"),
    (b"directive", 3, b"file 1|context a|HALT"),
    (b"directive", 3, b"file 1|context a|top:halt"),
    (b"directive", 3, b"file 1|context a|1x: foo"),
    (b"directive", 3, b"file 1|context a|top: context b|halt"),
    (b"directive", 3, b"file 1|context a|x: y: halt"),
    (b"operands", 1, b"file"),
    (b"operands", 1, b"file 1 2"),
    (b"operands", 2, b"file 1|inner c"),
    (b"operands", 2, b"file 1|input i port 0"),
    (b"operands", 2, b"file 1|input 1i prot 0 1"),
    (b"operands", 2, b"file 1|output o port 0 1"),
    (b"operands", 3, b"file 1|input i|words i"),
    (b"operands", 2, b"file 1|context"),
    (b"operands", 2, b"file 1|context a b"),
    (b"operands", 3, b"file 1|context a|li 1x|halt"),
    (b"operands", 3, b"file 1|context a|halt x"),
    (b"name", 2, b"file 1|output 1x"),
    (
        b"name",
        2,
        b"file 1|output nnnnnnnnnnnnnnnnnnnnnnnnnnnnnnnnn",
    ),
    (b"name", 2, b"file 1|context 1a|halt"),
    (b"name", 3, b"file 1|context a|: halt"),
    (b"name", 3, b"file 1|context a|li 1x, y|halt"),
    (b"name", 3, b"file 1|context a|recv x, 1c|halt"),
    (b"number", 1, b"file 0X1"),
    (b"number", 2, b"file 1|memory 0x"),
    (b"number", 3, b"file 1|context a|li x, 0x123456789|halt"),
    (b"number", 3, b"file 1|context a|li x, 4294967296|halt"),
    (b"number", 3, b"file 1|context a|li x, -1|halt"),
    (b"number", 2, b"file 1|input i port 4294967296 1"),
    (b"number", 3, b"file 1|input i|words i 1 x"),
    (b"limit", 1, b"file 0"),
    (b"limit", 1, b"file 129"),
    (b"limit", 2, b"file 1|memory 65537"),
    (b"limit", 2, b"file 1|inner c 0"),
    (b"limit", 2, b"file 1|inner c 1025"),
    (b"limit", 2, b"file 1|input i port 16 1025"),
    (b"ok", 0, b"file 1|*16 output o@|context a|halt"),
    (b"limit", 18, b"file 1|*17 output o@|context a|halt"),
    (b"ok", 0, b"file 1|*8 context c@;halt"),
    (b"limit", 18, b"file 1|*9 context c@;halt"),
    (b"ok", 0, b"file 1|context a|*128 li r@, 1|halt"),
    (b"limit", 131, b"file 1|context a|*129 li r@, 1|halt"),
    (b"ok", 0, b"file 1|context a|*2047 l@: yield|jmp l0"),
    (b"limit", 2051, b"file 1|context a|*2048 l@: yield|jmp l0"),
    (b"ok", 0, b"file 1|input i|words i +65536 1 |context a|halt"),
    (
        b"limit",
        4,
        b"file 1|input i|words i +65536 1 |words j 1|context a|halt",
    ),
    (b"port", 2, b"file 1|output o port 16"),
    (b"port", 3, b"file 1|input i port 3 1|output o port 3"),
    (b"port", 3, b"file 1|output o port 3|output o port 3"),
    (b"repeated", 2, b"file 1|file 1"),
    (b"repeated", 3, b"file 1|memory 0|memory 0"),
    (b"repeated", 3, b"file 1|output c|inner c 1"),
    (b"repeated", 4, b"file 1|context a|halt|context a"),
    (b"missing", 1, b""),
    (b"missing", 2, b"|"),
    (b"missing", 2, b"file 1"),
    (b"missing", 1, b"context a"),
    (b"missing", 2, b"memory 1|context a|jmp x"),
    (b"label-twice", 4, b"file 1|context a|x: yield|x: halt"),
    (b"label-twice", 4, b"file 1|context a|x:|x: recv r, c"),
    (b"channel-unknown", 2, b"file 1|words i 1|input i"),
    (b"channel-unknown", 3, b"file 1|context a|send c, x|halt"),
    (b"channel-kind", 3, b"file 1|output o|words o 1"),
    (
        b"channel-kind",
        4,
        b"file 1|output o|context a|recv x, o|halt",
    ),
    (
        b"channel-kind",
        4,
        b"file 1|input i|context a|send i, x|halt",
    ),
    (
        b"label-unknown",
        3,
        b"file 1|context a|jmp x|context b|x: halt",
    ),
    (b"label-unknown", 3, b"file 1|context a|beq x, y, z|foo"),
    (b"directive", 4, b"file 1|context a|jmp x|x: foo"),
    (b"empty", 2, b"file 1|context a|x:|foo:|context b|bar"),
    (b"empty", 4, b"file 1|context a|halt|context b"),
    (b"falls-off", 3, b"file 1|context a|yield|x:"),
    (b"falls-off", 4, b"file 1|context a|x: yield|beq a, b, x"),
    (b"falls-off", 4, b"file 1|context a|halt|x:|foo:"),
    (b"operands", 3, b"file 1|context a|li x|li 1x|context b"),
    (b"directive", 1, b"+1000000 a|"),
    (b"directive", 1, b"+200000 a,|"),
    (b"missing", 200001, b"*200000 "),
    (
        b"ok",
        0,
        b"file 1|context a|jmp late|#+1000000 -|late: halt",
    ),
];

/// The place of a byte, or the length.
fn until(bytes: &[u8], end: u8) -> usize
    ensures { result ≤ length bytes.now }
{
    for i in 0..bytes.len() {
        if bytes[i] == end {
            return i;
        }
    }
    bytes.len()
}

/// What stands before a byte and after it.
fn halves(bytes: &[u8], end: u8) -> (&[u8], &[u8]) {
    let at = until(bytes, end);
    if at < bytes.len() {
        (&bytes[..at], &bytes[at + 1..])
    } else {
        (bytes, &bytes[at..])
    }
}

/// The number that a word says.
fn number(word: &[u8]) -> u32 {
    read_number(word).unwrap_or(0)
}

fn put_line(text: &mut Vec<u8>, line: &[u8], k: u32) -> Result<(), Fail> {
    for b in line {
        match *b {
            b'@' => put_number(text, k)?,
            b';' => text.push(b'\n')?,
            b => text.push(b)?,
        }
    }
    Ok(())
}

/// One line of a row, or the lines that it stands for.
fn put_lines(text: &mut Vec<u8>, line: &[u8]) -> Result<(), Fail> {
    let (head, repeated) = halves(line, b'*');
    if head.len() < line.len() {
        let (times, line) = halves(repeated, b' ');
        for k in 0..number(times) {
            put_line(text, line, k)?;
            text.push(b'\n')?;
        }
        return Ok(());
    }
    let (head, repeated) = halves(line, b'+');
    put_line(text, head, 0)?;
    let (times, piece) = halves(repeated, b' ');
    for _ in 0..number(times) {
        put_line(text, piece, 0)?;
    }
    text.push(b'\n')?;
    Ok(())
}

fn text_of(alloc: Global, row: &[u8]) -> Result<Vec<u8>, Fail> {
    let mut text = Vec::new(alloc);
    let mut rest = row;
    for _ in 0..row.len() {
        if rest.is_empty() {
            break;
        }
        let (line, later) = halves(rest, b'|');
        put_lines(&mut text, line)?;
        rest = later;
    }
    Ok(text)
}

/// Whether the reader tells of a text that its first fault is of this kind and stands on this line.
fn is_told(alloc: Global, row: &Row) -> Result<bool, Fail> {
    let (kind, line, marked) = *row;
    let text = text_of(alloc, marked)?;
    if text.len() > LONGEST_TEXT {
        return Ok(false);
    }
    match read_bundle(alloc, text.as_slice()) {
        Ok(_) => Ok(kind == b"ok".as_slice()),
        Err(fault) => Ok(is_fault(fault, kind, line)),
    }
}

fn is_fault(fault: BundleFault, kind: &[u8], line: u32) -> bool {
    match fault {
        BundleFault::NoMemory => false,
        BundleFault::At {
            line: at,
            kind: found,
        } => at == line && kind_text(found) == kind,
    }
}

#[test]
fn tells_the_first_fault(rt: HostRuntime) -> Result<(), Fail> {
    for row in &ROWS {
        assert!(rt; is_told(rt.alloc(), row)?);
    }
    Ok(())
}

const TEXT: &[u8] =
    b"file 4\nmemory 9\ninput rx port 2 8\nwords rx 7\noutput tx\nwords rx 8 9\ncontext a\n\
top: recv x, rx\nadd y, x, x # twice\nsend tx, y\nend:\n  bne x, z, top\nhalt\n";

/// The bundle that a text of at most 4,096 bytes spells.
pub(crate) fn bundle_of(alloc: Global, text: &[u8]) -> Result<Bundle, Fail>
    ensures { IfOk result IsFormedBundle }
{
    if text.len() > 4096 {
        return Err("a short text".into());
    }
    match read_bundle(alloc, text) {
        Ok(bundle) => Ok(bundle),
        Err(_) => Err("a text without a fault".into()),
    }
}

/// Whether a bundle has what stands before the first context of `TEXT`.
fn has_header(bundle: &Bundle) -> bool {
    let numbers = (bundle.file, bundle.setting.memory, bundle.names.len());
    numbers == (4, 9, 2) && are_channels(bundle.setting.channels.as_slice())
}

fn are_channels(channels: &[Channel]) -> bool {
    for channel in channels {
        if !is_channel(channel) {
            return false;
        }
    }
    channels.len() == 2
}

const PORT: PortUse = PortUse {
    number: 2,
    capacity: 8,
};

/// Whether a channel is one of `TEXT`.
fn is_channel(channel: &Channel) -> bool {
    match channel {
        Channel::Input { words, port } => {
            words.as_slice() == [7, 8, 9].as_slice() && *port == Some(PORT)
        }
        Channel::Output { port } => port.is_none(),
        Channel::Inner { .. } => false,
    }
}

const X: VReg = VReg(0);

const Y: VReg = VReg(1);

/// The context of `TEXT`.
const CODE: [Line; 5] = [
    Line {
        instr: Instr::Recv { to: X, channel: 0 },
        line: 8,
    },
    Line {
        instr: Instr::Alu {
            op: AluOp::Add,
            to: Y,
            a: X,
            b: X,
        },
        line: 9,
    },
    Line {
        instr: Instr::Send {
            channel: 1,
            from: Y,
        },
        line: 10,
    },
    Line {
        instr: Instr::Branch {
            test: Test::Ne,
            a: X,
            b: VReg(2),
            target: 0,
        },
        line: 12,
    },
    Line {
        instr: Instr::Halt,
        line: 13,
    },
];

fn is_program(program: &Program) -> bool {
    program.name.bytes() == b"a".as_slice()
        && program.registers.len() == 3
        && program.labels.len() == 2
        && program.code.as_slice() == CODE.as_slice()
}

#[test]
fn reads_a_bundle(rt: HostRuntime) -> Result<(), Fail> {
    let bundle = bundle_of(rt.alloc(), TEXT)?;
    assert!(rt; has_header(&bundle));
    assert!(rt; bundle.programs.len() == 1);
    for program in bundle.programs.as_slice() {
        assert!(rt; is_program(program));
    }
    Ok(())
}
