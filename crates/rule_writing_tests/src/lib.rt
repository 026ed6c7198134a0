// Tests of writing: each place where brackets must and must not stand, reading back, the limits, and the order of checks.
#![tactic(auto)]

#[cfg(test)]
mod tests {
    use refusals::Fault;
    use rule_text::{Entry, read};
    use rule_writing::write;
    use rules::{Record, Rule};
    use std::alloc::{AllocError, Global};
    use std::process::Abort;
    use std::test::Fail;

    // The names any, a and b.
    const NAMES: [Entry; 3] = [
        *b"any\0\0\0\0\0\0\0\0\0\0\0\0\0",
        *b"a\0\0\0\0\0\0\0\0\0\0\0\0\0\0\0",
        *b"b\0\0\0\0\0\0\0\0\0\0\0\0\0\0\0",
    ];

    // The name any, and one of 16 letters.
    const LONG_NAMES: [Entry; 2] = [*b"any\0\0\0\0\0\0\0\0\0\0\0\0\0", *b"abcdefghijklmnop"];

    // A name list whose second entry is bad.
    const BAD_NAMES: [Entry; 2] = [
        *b"any\0\0\0\0\0\0\0\0\0\0\0\0\0",
        *b"any\0\0\0\0\0\0\0\0\0\0\0\0\0",
    ];

    // What is in a byte that writing must leave as it was.
    const KEPT: u8 = 7;

    fn reads(rt: &impl Abort, names: &[Entry], text: &[u8], rule: &mut Rule) {
        assert!(rt; read(names, text, rule).is_ok());
    }

    // Whether what is written of the rule is read back as the same rule.
    fn comes_back(
        rt: &impl Abort,
        heap: Global,
        names: &[Entry],
        rule: &Rule,
        text: &[u8],
    ) -> Result<(), Fail> {
        let mut back = Rule::new(heap)?;
        reads(rt, names, text, &mut back);
        assert!(rt; rule.nodes() == back.nodes());
        Ok(())
    }

    // Whether the rule is written as this text, with the byte past it left as it was, and comes back.
    fn writes(
        rt: &impl Abort,
        heap: Global,
        names: &[Entry],
        rule: &Rule,
        text: &[u8],
    ) -> Result<(), Fail> {
        let mut memory = vec![in heap; KEPT; text.len() + 1]?;
        assert_eq!(rt; write(names, rule, &mut memory), Ok(text.len()));
        assert!(rt; memory.starts_with(text) && memory.ends_with(&[KEPT]));
        comes_back(rt, heap, names, rule, text)
    }

    // The number and the place of a refusal.
    fn told(fault: Fault) -> (u8, usize) {
        (fault.refusal.number(), fault.place)
    }

    // Whether the rule is refused, by this number at this place, and the memory is as it was. A condition that a test asserts, so a bool.
    fn refused(names: &[Entry], rule: &Rule, memory: &mut [u8], number: u8, place: usize) -> bool {
        write(names, rule, memory).map_err(told) == Err((number, place))
            && memory.iter().all(|b| *b == KEPT)
    }

    #[test]
    fn brackets(rt: HostRuntime) -> Result<(), Fail> {
        let heap = rt.alloc();
        let table: [(&[u8], &[u8]); 24] = [
            (b"a", b"a"),
            (b" ( ( b ) ) ", b"b"),
            (b"! \n a", b"!a"),
            (b"(any)", b"any"),
            (b"nil", b"nil"),
            (b"void*", b"void*"),
            (b"(a b) a", b"a b a"),
            (b"a (b a)", b"a (b a)"),
            (b"(a|b)|a", b"a | b | a"),
            (b"a|(b|a)", b"a | (b | a)"),
            (b"(a|b) a", b"(a | b) a"),
            (b"a(a|b)", b"a (a | b)"),
            (b"(a b)|(b a)", b"a b | b a"),
            (b"(a b)*", b"(a b)*"),
            (b"(a|b)*", b"(a | b)*"),
            (b"((a*)*)*", b"a***"),
            (b"(!a)*", b"!a*"),
            (b"(a*) (b*)", b"a* b*"),
            (b"(a|b)* a", b"(a | b)* a"),
            (b"a ((b))* | (nil)", b"a b* | nil"),
            (b"(a (b a)) b", b"a (b a) b"),
            (b"((a|b)|(a|b))*", b"(a | b | (a | b))*"),
            (b"(a (b|a)) | b", b"a (b | a) | b"),
            (b"a | (b a)* !b", b"a | (b a)* !b"),
        ];
        let mut rule = Rule::new(heap)?;
        writes(&rt, heap, &NAMES, &rule, b"void")?;
        for (text, expected) in table {
            reads(&rt, &NAMES, text, &mut rule);
            writes(&rt, heap, &NAMES, &rule, expected)?;
        }
        Ok(())
    }

    // Choices nested to the right: leaves, and then as many choices as join them.
    fn nested(heap: Global, leaves: u32, code: u32) -> Result<Vec<Record>, AllocError> {
        let leaf = Record {
            code: 2,
            test: 1,
            size: 1,
        };
        let mut list = vec![in heap; leaf; leaves as usize]?;
        for i in 1..leaves {
            list.push(Record {
                code,
                test: 0,
                size: i.wrapping_mul(2).wrapping_add(1),
            })?;
        }
        Ok(list)
    }

    #[test]
    fn deep_brackets(rt: HostRuntime) -> Result<(), Fail> {
        let heap = rt.alloc();
        let mut rule = Rule::new(heap)?;
        let chains = b"a (a (a (a (a (a (a (a (a (a (a (a (a (a (a (a (a a))))))))))))))))";
        let choices =
            b"a | (a | (a | (a | (a | (a | (a | (a | (a | (a | (a | (a | (a | (a | (a | (a | (a | a))))))))))))))))";
        let table: [(u32, &[u8]); 2] = [(3, chains), (4, choices)];
        for (code, text) in table {
            assert!(rt; rule.take(&nested(heap, 18, code)?).is_ok());
            writes(&rt, heap, &NAMES, &rule, text)?;
            assert!(rt; rule.take(&nested(heap, 19, code)?).is_ok());
            assert!(rt; refused(&NAMES, &rule, &mut [KEPT; 8], 14, 0));
        }
        Ok(())
    }

    #[test]
    fn most_nodes(rt: HostRuntime) -> Result<(), Fail> {
        let heap = rt.alloc();
        let mut rule = Rule::new(heap)?;
        let mut text = b"a ".repeat(heap, 255)?;
        text.extend_from_slice(b"a*")?;
        reads(&rt, &NAMES, &text, &mut rule);
        assert!(rt; rule.nodes().len() == 512);
        writes(&rt, heap, &NAMES, &rule, &text)
    }

    // The rule's nodes, and a repeat over them.
    fn repeated(heap: Global, rule: &Rule) -> Result<Vec<Record>, AllocError> {
        let mut list = rule
            .nodes()
            .iter()
            .map(|node| Record::from(*node))
            .collect::<Vec<_>>(heap)?;
        list.push(Record {
            code: 5,
            test: 0,
            size: rule.nodes().len() as u32 + 1,
        })?;
        Ok(list)
    }

    // A text of 4,096 bytes, and one with a pair of brackets and a star more.
    #[test]
    fn longest_text(rt: HostRuntime) -> Result<(), Fail> {
        let heap = rt.alloc();
        let mut rule = Rule::new(heap)?;
        let mut text = b"abcdefghijklmnop ".repeat(heap, 240)?;
        text.extend_from_slice(b"abcdefghijklmnop")?;
        reads(&rt, &LONG_NAMES, &text, &mut rule);
        writes(&rt, heap, &LONG_NAMES, &rule, &text)?;
        let list = repeated(heap, &rule)?;
        assert!(rt; rule.take(&list).is_ok());
        assert!(rt; refused(&LONG_NAMES, &rule, &mut [KEPT; 8], 17, 0));
        assert!(rt; refused(&LONG_NAMES, &rule, &mut vec![in heap; KEPT; 5000]?, 17, 0));
        Ok(())
    }

    // A text of ten bytes: into nine, and into ten.
    #[test]
    fn memory(rt: HostRuntime) -> Result<(), Fail> {
        let mut rule = Rule::new(rt.alloc())?;
        reads(&rt, &NAMES, b"a (!b | b)", &mut rule);
        assert!(rt; refused(&NAMES, &rule, &mut [KEPT; 9], 34, 0));
        assert!(rt; refused(&NAMES, &rule, &mut [], 34, 0));
        let mut memory = [KEPT; 10];
        assert_eq!(rt; write(&NAMES, &rule, &mut memory), Ok(10));
        assert!(rt; &memory == b"a (!b | b)");
        // with two names, tests 0 to 3 have one
        assert!(rt; refused(&LONG_NAMES, &rule, &mut [KEPT; 4], 15, 1));
        assert!(rt; refused(&BAD_NAMES, &rule, &mut [KEPT; 4], 18, 16));
        assert!(rt; refused(&[], &rule, &mut [KEPT; 4], 18, 0));
        Ok(())
    }

    // A test without a name goes before brackets that are too deep, and these before a text that is too long.
    #[test]
    fn order_of_checks(rt: HostRuntime) -> Result<(), Fail> {
        let heap = rt.alloc();
        let mut rule = Rule::new(heap)?;
        let mut list = nested(heap, 250, 3)?;
        assert!(rt; rule.take(&list).is_ok());
        assert!(rt; refused(&LONG_NAMES, &rule, &mut [KEPT; 4], 14, 0));
        assert!(rt; list.len() > 249);
        list[249].test = 4;
        assert!(rt; rule.take(&list).is_ok());
        assert!(rt; refused(&LONG_NAMES, &rule, &mut [KEPT; 4], 15, 249));
        Ok(())
    }
}
