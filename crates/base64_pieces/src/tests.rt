use crate::{decode_pieces, encode_pieces};
use base64ct::{Base64, Decoder, Error, LineEnding};

// The texts are by coreutils: `printf foobar | base64`, with `-w 4` for lines.
#[test]
fn pieces_are_one(rt: HostRuntime) {
    let cuts: [[&[u8]; 3]; 3] = [
        [b"foobar", b"", b""],
        [b"f", b"oob", b"ar"],
        [b"", b"fooba", b"r"],
    ];
    for pieces in cuts {
        let mut output = [0u8; 9];
        let lines = Some((4, LineEnding::LF));
        let text = encode_pieces::<Base64>(&mut output, lines, &pieces);
        assert_eq!(rt; text, Ok("Zm9v\nYmFy"));
    }
    for lengths in [[6, 0, 0], [1, 4, 1], [0, 2, 4]] {
        let mut decoder = Decoder::<Base64>::new_wrapped(b"Zm9v\nYmFy", 4).expect(&rt, "lines");
        let mut bytes = Vec::new(rt.alloc());
        let decoded = decode_pieces(rt.alloc(), &mut decoder, &lengths, &mut bytes);
        assert_eq!(rt; decoded, Ok(()));
        assert_eq!(rt; bytes.as_slice(), b"foobar".as_slice());
    }
    let mut output = [0u8; 8];
    for (lines, error) in [
        (Some((4, LineEnding::LF)), Error::InvalidLength),
        (Some((3, LineEnding::LF)), Error::InvalidLength),
    ] {
        assert_eq!(rt;
            encode_pieces::<Base64>(&mut output, lines, &[b"foobar"]),
            Err(error)
        );
    }
}
