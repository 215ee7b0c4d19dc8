//! One good shared object: its length, and its bytes by their places. All other bytes are zeros.

use super::Write;

pub(super) const GOOD_LEN: usize = 0x610;

pub(super) const GOOD: [Write; 36] = [
    // the header
    (
        0x0,
        b"\x7fELF\x02\x01\x01\0\0\0\0\0\0\0\0\0\x03\0\xf3\0\x01\0\0\0\0\0\0\0\0\0\0\0@\0\0\0\0\0\0\0\0\0\0\0\0\0\0\0\0\0\x03\0@\08\0\x05\0@",
    ),
    // a segment that is read
    (
        0x40,
        b"\x01\0\0\0\x04\0\0\0\0\0\0\0\0\0\0\0\0\0\0\0\0\0\0\0\0\0\0\0\0\0\0\0\0\x06\0\0\0\0\0\0\0\x06\0\0\0\0\0\0\0\x10",
    ),
    // a segment of code
    (
        0x78,
        b"\x01\0\0\0\x05\0\0\0\0\x06\0\0\0\0\0\0\0\x10\0\0\0\0\0\0\0\x10\0\0\0\0\0\0\x10\0\0\0\0\0\0\0\x10\0\0\0\0\0\0\0\x10",
    ),
    // a segment that is written
    (
        0xb0,
        b"\x01\0\0\0\x06\0\0\0\0\0\0\0\0\0\0\0\0 \0\0\0\0\0\0\0 \0\0\0\0\0\0\0\0\0\0\0\0\0\0\0\x02\0\0\0\0\0\0\0 ",
    ),
    // the dynamic table
    (
        0xe8,
        b"\x02\0\0\0\x06\0\0\0@\x04\0\0\0\0\0\0@\x04\0\0\0\0\0\0@\x04\0\0\0\0\0\0@\x01\0\0\0\0\0\0@\x01\0\0\0\0\0\0\x08",
    ),
    // the range that is read-only later
    (
        0x120,
        b"R\xe5td\x04\0\0\0\0 \0\0\0\0\0\0\0 \0\0\0\0\0\0\0 \0\0\0\0\0\0\0\x01\0\0\0\0\0\0\0\x01\0\0\0\0\0\0\x01",
    ),
    // the null symbol, whose bytes are passed over
    (0x1c0, b"wwwwwwwwwwwwwwwwwwwwwwww"),
    // `a`, an object
    (0x1d8, b"\x01\0\0\0\x11\0\x01\0\0 \0\0\0\0\0\0 "),
    // `f`, a function
    (0x1f0, b"\x03\0\0\0\x12\0\x01\0\0\x10\0\0\0\0\0\0\x04"),
    // `u`, weak and undefined
    (0x208, b"\x05\0\0\0 "),
    // the hash table: two buckets, four chains
    (
        0x240,
        b"\x02\0\0\0\x04\0\0\0\x02\0\0\0\x03\0\0\0\0\0\0\0\0\0\0\0\0\0\0\0\x01",
    ),
    // the strings
    (0x280, b"\0a\0f\0u\0n.so\0m.so"),
    // a name that is too long
    (
        0x291,
        b"nnnnnnnnnnnnnnnnnnnnnnnnnnnnnnnnnnnnnnnnnnnnnnnnnnnnnnnnnnnnnnnnnnnnnnnnnnnnnnnnnnnnnnnnnnnnnnnnnnnnnnnnnnnnnnnnnnnnnnnnnnnnnnnnnnnnnnnnnnnnnnnnnnnnnnnnnnnnnnnnnnnnnnnnnnnnnnnnnnnnnnnnnnnnnnnnnnnnnnnnnnnnnnnnnnnnnnnnnnnnnnnnnnnnnnnnnnnnnnnnnnnnnnnnnnnnnnnn",
    ),
    // a relocation
    (0x3c0, b"\0 \0\0\0\0\0\0\xc1\0\0\0\x01"),
    // a relocation with the addend -1
    (
        0x3d8,
        b"\x10 \0\0\0\0\0\0\xc1\0\0\0\x02\0\0\0\xff\xff\xff\xff\xff\xff\xff\xff",
    ),
    // a late relocation
    (0x3f8, b"  \0\0\0\0\0\0\x05\0\0\0\x02"),
    // an entry of `__cap_relocs`
    (
        0x410,
        b"0 \0\0\0\0\0\0\0 \0\0\0\0\0\0\x04\0\0\0\0\0\0\0 \0\0\0\0\0\0\0\0\0\0\0\0\0\0@",
    ),
    // dynamic: needed
    (0x440, b"\x01\0\0\0\0\0\0\0\x07"),
    // dynamic: own name
    (0x450, b"\x0e\0\0\0\0\0\0\0\x0c"),
    // dynamic: hash table
    (0x460, b"\x04\0\0\0\0\0\0\0@\x02"),
    // dynamic: strings
    (0x470, b"\x05\0\0\0\0\0\0\0\x80\x02"),
    // dynamic: size of the strings
    (0x480, b"\x0a\0\0\0\0\0\0\0\x12\x01"),
    // dynamic: symbols
    (0x490, b"\x06\0\0\0\0\0\0\0\xc0\x01"),
    // dynamic: size of a symbol
    (0x4a0, b"\x0b\0\0\0\0\0\0\0\x18"),
    // dynamic: relocations
    (0x4b0, b"\x07\0\0\0\0\0\0\0\xc0\x03"),
    // dynamic: their size
    (0x4c0, b"\x08\0\0\0\0\0\0\00"),
    // dynamic: size of one
    (0x4d0, b"\x09\0\0\0\0\0\0\0\x18"),
    // dynamic: late relocations
    (0x4e0, b"\x17\0\0\0\0\0\0\0\xf8\x03"),
    // dynamic: their size
    (0x4f0, b"\x02\0\0\0\0\0\0\0\x18"),
    // dynamic: their kind
    (0x500, b"\x14\0\0\0\0\0\0\0\x07"),
    // dynamic: `__cap_relocs`
    (0x510, b"\0\xc0\0p\0\0\0\0\x10\x04"),
    // dynamic: its size
    (0x520, b"\x01\xc0\0p\0\0\0\0("),
    // dynamic: initial calls
    (0x530, b"\x19\0\0\0\0\0\0\0@ "),
    // dynamic: their size
    (0x540, b"\x1b\0\0\0\0\0\0\0\x10"),
    // dynamic: final calls
    (0x550, b"\x1a\0\0\0\0\0\0\0P "),
    // dynamic: their size
    (0x560, b"\x1c\0\0\0\0\0\0\0 "),
];
