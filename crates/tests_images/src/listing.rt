// Listings.

use br_image::read;
use br_listing::list;
use std::test::Fail;

#[test]
fn listings(rt: HostRuntime) -> Result<(), Fail> {
    let cases = [
        (
            "1\nentry main 0 0 0 0\ncode 2\n00000297\n0052a023\n",
            "main:\n80000000 00000297 auipc x5, 0x00000\n80000004 0052a023 sw x5, 0(x5)\n",
        ),
        // In the other layout code stands elsewhere.
        (
            "2\nentry main 0 0 4 0\ncode 2\n00000297\n0052a023\n",
            "80300000 00000297 auipc x5, 0x00000\nmain:\n80300004 0052a023 sw x5, 0(x5)\n",
        ),
        // Functions that begin at one word, or are not in the order of the code.
        (
            "1\nentry c 0 0 4 0\nentry b 0 0 0 0\nentry a 0 0 4 0\ncode 2\n00000073\nffdff06f\n",
            "b:\n80000000 00000073 ecall\nc:\na:\n80000004 ffdff06f jal x0, -4\n",
        ),
        // No function, and no instruction.
        (
            "1\ncode 3\n00000000\n00100073\n0000000f\n",
            "80000000 00000000 .word\n80000004 00100073 .word\n80000008 0000000f .word\n",
        ),
        ("2\ncode 0\n", ""),
    ];
    for (lines, listing) in &cases {
        let text = format!(in rt.alloc(); "brimage {lines}end\n")?;
        let image = match read(rt.alloc(), text.as_bytes()) {
            Ok(image) => image,
            Err(_) => return Err(Fail::from("an image")),
        };
        assert_eq!(rt; list(rt.alloc(), &image)?.as_slice(), listing.as_bytes());
    }
    Ok(())
}
