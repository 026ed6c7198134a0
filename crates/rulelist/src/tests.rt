// What the program prints: each fault that a text can meet, at its place, the order of checks, and the edges of the limits.
use super::listing::listing;
use std::alloc::Global;
use std::process::Abort;
use std::test::Fail;

fn prints(rt: &impl Abort, heap: Global, text: &[u8], expected: &str) -> Result<(), Fail> {
    let output = listing(heap, text)?;
    assert!(rt; output.as_str() == expected);
    Ok(())
}

#[test]
fn faults(rt: HostRuntime) -> Result<(), Fail> {
    let table: [(&[u8], &str); 58] = [
        (b"\t", "fault 11 words 0\n"),
        (b"a\r\n", "fault 11 words 1\n"),
        (b"a A", "fault 11 words 2\n"),
        (b"a\xff", "fault 11 words 1\n"),
        (b"9", "fault 12 words 0\n"),
        (b"a -a", "fault 12 words 2\n"),
        (b"aaaaaaaaaaaaaaaaa", "fault 12 words 0\n"),
        (b"!9", "fault 12 words 1\n"),
        (b"", "fault 13 grammar 0\n"),
        (b" \n ", "fault 13 grammar 3\n"),
        (b"a |", "fault 13 grammar 3\n"),
        (b"a |\n", "fault 13 grammar 4\n"),
        (b"a |  ", "fault 13 grammar 5\n"),
        (b"| a", "fault 13 grammar 0\n"),
        (b"a || b", "fault 13 grammar 3\n"),
        (b"*", "fault 13 grammar 0\n"),
        (b"()", "fault 13 grammar 1\n"),
        (b"(|a)", "fault 13 grammar 1\n"),
        (b"(", "fault 13 grammar 1\n"),
        (b"(a", "fault 13 grammar 2\n"),
        (b"(a*\n", "fault 13 grammar 4\n"),
        (b"a)", "fault 13 grammar 1\n"),
        (b"a ) 9", "fault 13 grammar 2\n"),
        (b"!", "fault 13 grammar 1\n"),
        (b"!nil", "fault 13 grammar 1\n"),
        (b"! void", "fault 13 grammar 2\n"),
        (b"!(a)", "fault 13 grammar 1\n"),
        (b"!!a", "fault 13 grammar 1\n"),
        (b"!*", "fault 13 grammar 1\n"),
        (b"((((((((((((((((((", "fault 14 grammar 16\n"),
        (b"((((((((((((((((!(", "fault 13 grammar 17\n"),
        (b"((((((((((((((((a (", "fault 14 grammar 18\n"),
        (b"((((((((((((((((9(", "fault 12 words 16\n"),
        (b"c", "fault 15 names 0\n"),
        (b"! c", "fault 15 names 2\n"),
        (b"a nil2", "fault 15 names 2\n"),
        (b"aaaaaaaaaaaaaaaa", "fault 15 names 0\n"),
        (b"c 9 A", "fault 15 names 0\n"),
        (b"a 9 c", "fault 12 words 2\n"),
        (b"a A 9", "fault 11 words 2\n"),
        (b"a ( | c", "fault 13 grammar 4\n"),
        (b"a (c", "fault 15 names 3\n"),
        (b"{", "fault 11 words 0\n"),
        (b"\0", "fault 11 words 0\n"),
        (b"a\x80", "fault 11 words 1\n"),
        (b"Z", "fault 11 words 0\n"),
        (b"1a", "fault 12 words 0\n"),
        (b"a-", "fault 15 names 0\n"),
        (b"a--9", "fault 15 names 0\n"),
        (b"voids", "fault 15 names 0\n"),
        (b"nil-", "fault 15 names 0\n"),
        (b"((a)", "fault 13 grammar 4\n"),
        (b"(nil", "fault 13 grammar 4\n"),
        (b"(void ", "fault 13 grammar 6\n"),
        (b"(!a\n", "fault 13 grammar 4\n"),
        (b"a!", "fault 13 grammar 2\n"),
        (b"a*|", "fault 13 grammar 3\n"),
        (b"(a)(", "fault 13 grammar 4\n"),
    ];
    for (text, expected) in table {
        prints(&rt, rt.alloc(), text, expected)?;
    }
    Ok(())
}

#[test]
fn listings(rt: HostRuntime) -> Result<(), Fail> {
    let table: [(&[u8], &str); 19] = [
        (b"void", "node kind test size next far\n0 void - 1 1 -\n"),
        (b"nil", "node kind test size next far\n0 nil - 1 1 0\n"),
        (b"any", "node kind test size next far\n0 leaf 0 1 1 1\n"),
        (b"!any", "node kind test size next far\n0 leaf 3 1 1 -\n"),
        (b"! \n a", "node kind test size next far\n0 leaf 4 1 1 1\n"),
        (b"((b))", "node kind test size next far\n0 leaf 2 1 1 1\n"),
        (b"!\na", "node kind test size next far\n0 leaf 4 1 1 1\n"),
        (
            b"nil**",
            "node kind test size next far\n0 nil - 1 1 0\n1 repeat - 2 2 0\n2 repeat - 3 3 0\n",
        ),
        (
            b"!a*",
            "node kind test size next far\n0 leaf 4 1 1 1\n1 repeat - 2 2 0\n",
        ),
        (
            b"(a b)**",
            "node kind test size next far\n0 leaf 1 1 1 2\n1 leaf 2 1 3 1\n2 chain - 3 3 2\n3 repeat - 4 4 0\n4 repeat - 5 5 0\n",
        ),
        (
            b"a | b | a",
            "node kind test size next far\n0 leaf 1 1 5 1\n1 leaf 2 1 5 1\n2 choice - 3 5 1\n3 leaf 1 1 5 1\n4 choice - 5 5 1\n",
        ),
        (
            b"a*b",
            "node kind test size next far\n0 leaf 1 1 1 2\n1 repeat - 2 2 1\n2 leaf 2 1 4 1\n3 chain - 4 4 1\n",
        ),
        (
            b"void*",
            "node kind test size next far\n0 void - 1 1 -\n1 repeat - 2 2 0\n",
        ),
        (
            b"a**",
            "node kind test size next far\n0 leaf 1 1 1 1\n1 repeat - 2 2 0\n2 repeat - 3 3 0\n",
        ),
        (
            b"a|b a",
            "node kind test size next far\n0 leaf 1 1 5 1\n1 leaf 2 1 2 2\n2 leaf 1 1 5 1\n3 chain - 3 5 2\n4 choice - 5 5 1\n",
        ),
        (
            b" \n( any\n|nil ) \n* \n",
            "node kind test size next far\n0 leaf 0 1 3 1\n1 nil - 1 3 0\n2 choice - 3 3 0\n3 repeat - 4 4 0\n",
        ),
        (
            b"a b a",
            "node kind test size next far\n0 leaf 1 1 1 3\n1 leaf 2 1 3 2\n2 chain - 3 3 3\n3 leaf 1 1 5 1\n4 chain - 5 5 3\n",
        ),
        (
            b"void a | b",
            "node kind test size next far\n0 void - 1 1 -\n1 leaf 1 1 5 1\n2 chain - 3 5 -\n3 leaf 2 1 5 1\n4 choice - 5 5 1\n",
        ),
        (
            b"a void | b",
            "node kind test size next far\n0 leaf 1 1 1 -\n1 void - 1 5 -\n2 chain - 3 5 -\n3 leaf 2 1 5 1\n4 choice - 5 5 1\n",
        ),
    ];
    for (text, expected) in table {
        prints(&rt, rt.alloc(), text, expected)?;
    }
    Ok(())
}

#[test]
fn long_texts(rt: HostRuntime) -> Result<(), Fail> {
    let heap = rt.alloc();
    prints(
        &rt,
        heap,
        &b" ".repeat(heap, 4096)?,
        "fault 13 grammar 4096\n",
    )?;
    prints(
        &rt,
        heap,
        &b" ".repeat(heap, 4097)?,
        "fault 17 words 4096\n",
    )?;
    prints(
        &rt,
        heap,
        &b"\xff".repeat(heap, 9000)?,
        "fault 17 words 4096\n",
    )?;
    prints(
        &rt,
        heap,
        &b"(".repeat(heap, 4096)?,
        "fault 14 grammar 16\n",
    )
}

#[test]
fn many_nodes(rt: HostRuntime) -> Result<(), Fail> {
    let heap = rt.alloc();
    let mut text = b"a ".repeat(heap, 256)?;
    assert!(rt;
        listing(heap, &text)?
            .as_str()
            .ends_with("510 chain - 511 511 256\n")
    );
    text.extend_from_slice(b"a")?;
    prints(&rt, heap, &text, "fault 16 nodes 513\n")?;
    text.extend_from_slice(b" 9")?;
    prints(&rt, heap, &text, "fault 12 words 514\n")?;
    let mut text = b"a ".repeat(heap, 255)?;
    text.extend_from_slice(b"a*")?;
    assert!(rt;
        listing(heap, &text)?
            .as_str()
            .ends_with("510 repeat - 2 512 0\n511 chain - 512 512 255\n")
    );
    text.extend_from_slice(b"*")?;
    prints(&rt, heap, &text, "fault 16 nodes 513\n")
}

#[test]
fn deep_brackets(rt: HostRuntime) -> Result<(), Fail> {
    let heap = rt.alloc();
    let mut text = b"(".repeat(heap, 16)?;
    text.extend_from_slice(b"a")?;
    text.extend_from_slice(&b")".repeat(heap, 16)?)?;
    prints(
        &rt,
        heap,
        &text,
        "node kind test size next far\n0 leaf 1 1 1 1\n",
    )
}
