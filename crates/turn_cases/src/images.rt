//! Images as bytes.

/// A file of 3 with the output `out`, and the contexts a and b, each of which has the one place of the
/// shared range after its own: li x, 7; yield; li y, 1; add x, x, y; send out, x; halt.
pub(crate) const TWO_CONTEXTS: [u8; 188] = [
    85, 82, 69, 71, 1, 0, 2, 0, 3, 0, 1, 0, 0, 0, 0, 0, 2, 0, 1, 0, 2, 255, 0, 0, 0, 0, 0, 0, 0, 0,
    1, 0, 6, 0, 0, 0, 129, 0, 0, 0, 7, 0, 0, 0, 4, 0, 0, 0, 151, 0, 0, 0, 0, 0, 0, 0, 5, 0, 0, 0,
    129, 2, 0, 0, 1, 0, 0, 0, 6, 0, 0, 0, 131, 0, 0, 2, 0, 0, 0, 0, 7, 0, 0, 0, 153, 0, 0, 0, 0, 0,
    0, 0, 8, 0, 0, 0, 154, 0, 0, 0, 0, 0, 0, 0, 9, 0, 0, 0, 1, 0, 1, 0, 6, 0, 0, 0, 129, 1, 0, 0,
    7, 0, 0, 0, 11, 0, 0, 0, 151, 0, 0, 0, 0, 0, 0, 0, 12, 0, 0, 0, 129, 2, 0, 0, 1, 0, 0, 0, 13,
    0, 0, 0, 131, 1, 1, 2, 0, 0, 0, 0, 14, 0, 0, 0, 153, 0, 1, 0, 0, 0, 0, 0, 15, 0, 0, 0, 154, 0,
    0, 0, 0, 0, 0, 0, 16, 0, 0, 0,
];

/// A file of 2 with the input `rx` of port 0, whose ring has 4 words, and the output `tx`; one context,
/// which puts out each word that it receives: loop: recv x, rx; send tx, x; jmp loop.
pub(crate) const ECHO: [u8; 80] = [
    85, 82, 69, 71, 1, 0, 1, 0, 2, 0, 2, 0, 0, 0, 0, 0, 0, 0, 1, 0, 1, 0, 4, 0, 0, 0, 0, 0, 2, 255,
    0, 0, 0, 0, 0, 0, 0, 0, 0, 0, 3, 0, 0, 0, 152, 0, 0, 0, 0, 0, 0, 0, 6, 0, 0, 0, 153, 0, 0, 0,
    1, 0, 0, 0, 7, 0, 0, 0, 144, 0, 0, 0, 0, 0, 0, 0, 8, 0, 0, 0,
];
