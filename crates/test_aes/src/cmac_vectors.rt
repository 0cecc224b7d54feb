//! The examples of SP 800-38B (D.1 to D.3).

use crate::rows;
use crate::rows::Row;
use crate::under_keys::Asked;

/// The text. Its first 0, 16, 40 and 64 bytes are taken.
pub const TEXT: &[u8; 64] =
    b"\x6b\xc1\xbe\xe2\x2e\x40\x9f\x96\xe9\x3d\x7e\x11\x73\x93\x17\x2a\xae\x2d\x8a\x57\x1e\x03\xac\x9c\x9e\xb7\x6f\xac\x45\xaf\x8e\x51\x30\xc8\x1c\x46\xa3\x5c\xe4\x11\xe5\xfb\xc1\x19\x1a\x0a\x52\xef\xf6\x9f\x24\x45\xdf\x4f\x9b\x17\xad\x2b\x41\x7b\xe6\x6c\x37\x10";

const SMALL: &[u8] = b"\x2b\x7e\x15\x16\x28\xae\xd2\xa6\xab\xf7\x15\x88\x09\xcf\x4f\x3c";

const MIDDLE: &[u8] =
    b"\x8e\x73\xb0\xf7\xda\x0e\x64\x52\xc8\x10\xf3\x2b\x80\x90\x79\xe5\x62\xf8\xea\xd2\x52\x2c\x6b\x7b";

const LARGE: &[u8] =
    b"\x60\x3d\xeb\x10\x15\xca\x71\xbe\x2b\x73\xae\xf0\x85\x7d\x77\x81\x1f\x35\x2c\x07\x3b\x61\x08\xd7\x2d\x98\x10\xa3\x09\x14\xdf\xf4";

/// D.1 to D.3.
pub const ROWS: &[Row] = &[
    Row(
        "CMAC of 0 bytes under 16",
        rows::Asked::Key(
            SMALL,
            Asked::Cmac(
                0,
                *b"\xbb\x1d\x69\x29\xe9\x59\x37\x28\x7f\xa3\x7d\x12\x9b\x75\x67\x46",
            ),
        ),
    ),
    Row(
        "CMAC of 16 bytes under 16",
        rows::Asked::Key(
            SMALL,
            Asked::Cmac(
                16,
                *b"\x07\x0a\x16\xb4\x6b\x4d\x41\x44\xf7\x9b\xdd\x9d\xd0\x4a\x28\x7c",
            ),
        ),
    ),
    Row(
        "CMAC of 40 bytes under 16",
        rows::Asked::Key(
            SMALL,
            Asked::Cmac(
                40,
                *b"\xdf\xa6\x67\x47\xde\x9a\xe6\x30\x30\xca\x32\x61\x14\x97\xc8\x27",
            ),
        ),
    ),
    Row(
        "CMAC of 64 bytes under 16",
        rows::Asked::Key(
            SMALL,
            Asked::Cmac(
                64,
                *b"\x51\xf0\xbe\xbf\x7e\x3b\x9d\x92\xfc\x49\x74\x17\x79\x36\x3c\xfe",
            ),
        ),
    ),
    Row(
        "CMAC of 0 bytes under 24",
        rows::Asked::Key(
            MIDDLE,
            Asked::Cmac(
                0,
                *b"\xd1\x7d\xdf\x46\xad\xaa\xcd\xe5\x31\xca\xc4\x83\xde\x7a\x93\x67",
            ),
        ),
    ),
    Row(
        "CMAC of 16 bytes under 24",
        rows::Asked::Key(
            MIDDLE,
            Asked::Cmac(
                16,
                *b"\x9e\x99\xa7\xbf\x31\xe7\x10\x90\x06\x62\xf6\x5e\x61\x7c\x51\x84",
            ),
        ),
    ),
    Row(
        "CMAC of 40 bytes under 24",
        rows::Asked::Key(
            MIDDLE,
            Asked::Cmac(
                40,
                *b"\x8a\x1d\xe5\xbe\x2e\xb3\x1a\xad\x08\x9a\x82\xe6\xee\x90\x8b\x0e",
            ),
        ),
    ),
    Row(
        "CMAC of 64 bytes under 24",
        rows::Asked::Key(
            MIDDLE,
            Asked::Cmac(
                64,
                *b"\xa1\xd5\xdf\x0e\xed\x79\x0f\x79\x4d\x77\x58\x96\x59\xf3\x9a\x11",
            ),
        ),
    ),
    Row(
        "CMAC of 0 bytes under 32",
        rows::Asked::Key(
            LARGE,
            Asked::Cmac(
                0,
                *b"\x02\x89\x62\xf6\x1b\x7b\xf8\x9e\xfc\x6b\x55\x1f\x46\x67\xd9\x83",
            ),
        ),
    ),
    Row(
        "CMAC of 16 bytes under 32",
        rows::Asked::Key(
            LARGE,
            Asked::Cmac(
                16,
                *b"\x28\xa7\x02\x3f\x45\x2e\x8f\x82\xbd\x4b\xf2\x8d\x8c\x37\xc3\x5c",
            ),
        ),
    ),
    Row(
        "CMAC of 40 bytes under 32",
        rows::Asked::Key(
            LARGE,
            Asked::Cmac(
                40,
                *b"\xaa\xf3\xd8\xf1\xde\x56\x40\xc2\x32\xf5\xb1\x69\xb9\xc9\x11\xe6",
            ),
        ),
    ),
    Row(
        "CMAC of 64 bytes under 32",
        rows::Asked::Key(
            LARGE,
            Asked::Cmac(
                64,
                *b"\xe1\x99\x21\x90\x54\x9f\x6e\xd5\x69\x6a\x2c\x05\x6c\x31\x54\x10",
            ),
        ),
    ),
];
