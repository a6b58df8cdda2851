//! Canonical texts.

use crate::texts::bundle_of;
use asm_print::print_bundle;
use std::alloc::Global;
use std::test::Fail;

/// Texts, each with its canonical form.
const TEXTS: [(&[u8], &[u8]); 2] = [
    (
        b"file 3\ninner k 1\ncontext c\nl:\nli d, 0\nmov d, a\nadd d, a, b\nsub d, a, b\nmul d, a, b
and d, a, b\nor d, a, b\nxor d, a, b\nshl d, a, b\nshr d, a, b\nltu d, a, b\neq d, a, b
div d, a, b\nrem d, a, b\nctx d\nbeq a, b, l\nbne a, b, l\nbltu a, b, l\nbgeu a, b, l
load d, a\nstore a, b\nyield\nrecv d, k\nsend k, a\nhalt\njmp l\n",
        b"file 3
memory 0
inner k 1
context c
l:
  li d, 0
  mov d, a
  add d, a, b
  sub d, a, b
  mul d, a, b
  and d, a, b
  or d, a, b
  xor d, a, b
  shl d, a, b
  shr d, a, b
  ltu d, a, b
  eq d, a, b
  div d, a, b
  rem d, a, b
  ctx d
  beq a, b, l
  bne a, b, l
  bltu a, b, l
  bgeu a, b, l
  load d, a
  store a, b
  yield
  recv d, k
  send k, a
  halt
  jmp l
",
    ),
    (
        b"# header lines in any order
memory 7
input rx port 0 4
inner p 3

file 0x8
words rx 1,2
output tx port 15
words rx 0xfF
\toutput\tq
input in
context main.loop
x:
y:
li x 0010
z: recv x,rx # a comment
# another
bltu x,x,y
bgeu,x,x,,z
send p x
jmp y
context b
_: halt
",
        b"file 8
memory 7
input rx port 0 4
words rx 1 2 255
inner p 3
output tx port 15
output q
input in
context main.loop
x:
y:
  li x, 10
z:
  recv x, rx
  bltu x, x, x
  bgeu x, x, z
  send p, x
  jmp x
context b
_:
  halt
",
    ),
];

/// Whether this is the canonical form of a text.
fn is_canonical(alloc: Global, text: &[u8], form: &[u8]) -> Result<bool, Fail> {
    let bundle = bundle_of(alloc, text)?;
    Ok(print_bundle(alloc, &bundle)?.as_slice() == form)
}

/// Whether this is the canonical form of a text, and its own.
fn is_form(alloc: Global, text: &[u8], form: &[u8]) -> Result<bool, Fail> {
    Ok(is_canonical(alloc, text, form)? && is_canonical(alloc, form, form)?)
}

#[test]
fn prints_each_line_in_its_form(rt: HostRuntime) -> Result<(), Fail> {
    for (text, form) in &TEXTS {
        assert!(rt; is_form(rt.alloc(), text, form)?);
    }
    Ok(())
}
