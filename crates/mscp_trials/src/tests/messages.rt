// The table of opcodes, and a message of each. tests/c/judging.c has what a controller says to all of them.

/// Each opcode, and the bytes of its end.
pub(super) const TABLE: [(u8, usize); 12] = [
    (1, 16),
    (2, 20),
    (3, 48),
    (4, 28),
    (8, 12),
    (9, 44),
    (10, 44),
    (16, 32),
    (18, 32),
    (32, 32),
    (33, 32),
    (34, 32),
];

/// A message of this opcode, filled with `fill`, of which so many bytes are sent.
pub(super) fn message(opcode: u8, fill: u8) -> [u8; 65] {
    let mut bytes = [fill; 65];
    bytes[8] = opcode;
    bytes
}
