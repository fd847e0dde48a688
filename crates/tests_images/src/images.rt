// The text of images.

use br_base::{Name, NoMemory, OrMemory};
use br_image::{Entry, Image, ImageFault, ScriptFault, TraceFault, print, read};
use br_words::Layout;
use sqlite_items::Items;
use std::alloc::Global;
use std::test::Fail;

/// The text of an image of one function that stores into its own code, without the version.
const TWO_WORDS: &str = "entry main 0 0 0 0\ncode 2\n00000297\n0052a023\nend\n";

fn two_words(alloc: Global, layout: Layout, name: Name) -> Result<Image, NoMemory> {
    let mut entries = Items::new(alloc);
    entries.push(Entry {
        name,
        args: 0,
        results: 0,
        offset: 0,
        need: 0,
    })?;
    let mut code = Items::new(alloc);
    code.push(0x0000_0297)?;
    code.push(0x0052_a023)?;
    Ok(Image {
        layout,
        entries,
        code,
    })
}

#[test]
fn an_image_is_printed(rt: HostRuntime) -> Result<(), Fail> {
    for (layout, version) in [(Layout::One, 1), (Layout::Two, 2)] {
        let name = Name::from_bytes(Vec::from_slice(rt.alloc(), b"main")?).ok_or("no name")?;
        let image = two_words(rt.alloc(), layout, name)?;
        let text = print(rt.alloc(), &image)?;
        let lines = format!(in rt.alloc(); "brimage {version}\n{TWO_WORDS}")?;
        assert_eq!(rt; text.as_slice(), lines.as_bytes());
    }
    Ok(())
}

/// The fault of a text, if it has one.
fn fault_of(alloc: Global, text: &[u8]) -> Result<Option<ImageFault>, NoMemory> {
    if text.len() > 1_073_741_824 {
        return Err(NoMemory);
    }
    match read(alloc, text) {
        Ok(_) => Ok(None),
        Err(OrMemory::Fault(fault)) => Ok(Some(fault)),
        Err(OrMemory::Memory) => Err(NoMemory),
    }
}

#[test]
fn each_front_is_truncated(rt: HostRuntime) -> Result<(), Fail> {
    let text = format!(in rt.alloc(); "brimage 2\n{TWO_WORDS}")?;
    let text = text.as_bytes();
    let mut line = 1u32;
    for (n, byte) in text.iter().enumerate() {
        assert_eq!(rt;
            fault_of(rt.alloc(), &text[..n])?,
            Some(ImageFault::Truncated(line))
        );
        if *byte == b'\n' {
            line = line.wrapping_add(1);
        }
    }
    assert_eq!(rt; fault_of(rt.alloc(), text)?, None);
    Ok(())
}

#[test]
fn lines_of_no_form(rt: HostRuntime) -> Result<(), Fail> {
    let lines = [
        "brimage 3",
        "brimage 01",
        "brimage 1 ",
        "entry f 9 0 0 0",
        "entry f 0 9 0 0",
        "entry f 0 0 4194304 0",
        "entry f 0 0 00000004194304 0",
        "entry f 0 0 0 1048577",
        "entry 1f 0 0 0 0",
        "entry  0 0 0 0",
        "entry f 00 0 0 0",
        "entry f +0 0 0 0",
        "entry f  0 0 0",
        "entry f 0 0 0",
        "entry f 0 0 0 0 ",
        "code 262145",
        "code 01",
        "code ",
        "0000029",
        "000002970",
        "0000029A",
        "end\r",
        "",
    ];
    for line in &lines {
        let text = format!(in rt.alloc(); "brimage 1\n{line}\nend\n")?;
        assert_eq!(rt;
            fault_of(rt.alloc(), text.as_bytes())?,
            Some(ImageFault::BadLine(2))
        );
    }
    Ok(())
}

#[test]
fn faults(rt: HostRuntime) -> Result<(), Fail> {
    let cases = [
        ("code 0\nend\n", None),
        ("entry f 8 8 0 1048576\ncode 1\nffffffff\nend\n", None),
        // A line that may not stand there, or follows the end, or names a function again.
        ("brimage 1\n", Some(ImageFault::BadOrder(2))),
        ("end\n", Some(ImageFault::BadOrder(2))),
        ("00000000\n", Some(ImageFault::BadOrder(2))),
        ("code 2\n00000297\nend\n", Some(ImageFault::BadOrder(4))),
        ("code 0\n00000297\nend\n", Some(ImageFault::BadOrder(3))),
        ("code 0\ncode 0\nend\n", Some(ImageFault::BadOrder(3))),
        ("code 0\nend\n\n", Some(ImageFault::BadOrder(4))),
        ("code 0\nend\nx", Some(ImageFault::BadOrder(4))),
        (
            "entry f 0 0 0 0\nentry f 0 0 0 0\n",
            Some(ImageFault::BadOrder(3)),
        ),
        // The first of two faults, an offset last.
        ("code 262144\n", Some(ImageFault::Truncated(3))),
        ("end\nx\n", Some(ImageFault::BadOrder(2))),
        ("x\nend\n", Some(ImageFault::BadLine(2))),
        (
            "entry f 0 0 4194303 0\ncode 0\n",
            Some(ImageFault::Truncated(4)),
        ),
        (
            "entry f 0 0 4 0\ncode 1\n00000073\nend\n",
            Some(ImageFault::BadOffset(2)),
        ),
        (
            "entry f 0 0 0 0\nentry g 0 0 2 0\ncode 1\n00000073\nend\n",
            Some(ImageFault::BadOffset(3)),
        ),
        (
            "entry f 0 0 0 0\ncode 0\nend\n",
            Some(ImageFault::BadOffset(2)),
        ),
    ];
    for (lines, fault) in &cases {
        let text = format!(in rt.alloc(); "brimage 1\n{lines}")?;
        assert_eq!(rt; fault_of(rt.alloc(), text.as_bytes())?, *fault);
    }
    Ok(())
}

#[test]
fn versions(rt: HostRuntime) -> Result<(), Fail> {
    let cases = [
        ("brimage 1\ncode 262145\n", ImageFault::BadLine(2)),
        ("brimage 1\ncode 262145", ImageFault::Truncated(2)),
        ("brimage 2\ncode 262145\n", ImageFault::Truncated(3)),
        ("brimage 2\ncode 1048576\n", ImageFault::Truncated(3)),
        ("brimage 2\ncode 1048577\n", ImageFault::BadLine(2)),
        ("brimage 1\ncode 0\ncode 262145\n", ImageFault::BadLine(3)),
        ("brimage 2\nbrimage 1\n", ImageFault::BadOrder(2)),
        // Without a version the first line alone is at fault.
        ("code 262145\n", ImageFault::BadOrder(1)),
        ("code 1048577\n", ImageFault::BadLine(1)),
        ("code 0\n", ImageFault::BadOrder(1)),
        ("brimage 01\n", ImageFault::BadLine(1)),
        ("brimage\n", ImageFault::BadLine(1)),
    ];
    for (text, fault) in &cases {
        assert_eq!(rt; fault_of(rt.alloc(), text.as_bytes())?, Some(*fault));
    }
    Ok(())
}

#[test]
fn faults_say_where(rt: HostRuntime) -> Result<(), Fail> {
    for (fault, message) in [
        (ImageFault::BadLine(1), "line 1 is of no form"),
        (ImageFault::BadOrder(2), "line 2 may not stand there"),
        (
            ImageFault::BadOffset(3),
            "the offset in line 3 is not in the code",
        ),
        (ImageFault::Truncated(4), "the text ends in line 4"),
    ] {
        assert_eq!(rt; format!(in rt.alloc(); "{fault}")?.as_str(), message);
    }
    for (fault, message) in [
        (ScriptFault::BadScriptLine(5), "line 5 may not stand there"),
        (ScriptFault::ScriptEnds(6), "the script ends in line 6"),
    ] {
        assert_eq!(rt; format!(in rt.alloc(); "{fault}")?.as_str(), message);
    }
    let fault = TraceFault::BadTraceLine(7);
    assert_eq!(rt;
        format!(in rt.alloc(); "{fault}")?.as_str(),
        "line 7 may not stand there"
    );
    Ok(())
}
