// Tests of reading: name lists, the order of checks, and what a refusal leaves.
#![tactic(auto)]

#[cfg(test)]
mod tests {
    use refusals::Fault;
    use rule_text::{Entry, Names, read};
    use rules::{Node, Rule, Shape};
    use std::alloc::{AllocError, Global};
    use std::test::Fail;

    // A name, filled up with 0 bytes.
    fn entry(name: &[u8]) -> Entry {
        let mut filled = [0; 16];
        let len = name.len().min(16);
        filled[..len].copy_from_slice(&name[..len]);
        filled
    }

    // The number and the place of a refusal.
    fn told(fault: Fault) -> (u8, usize) {
        (fault.refusal.number(), fault.place)
    }

    // What reading the text into a fresh rule answers.
    fn answer(
        heap: Global,
        names: &[Entry],
        text: &[u8],
    ) -> Result<Result<(), (u8, usize)>, AllocError> {
        Ok(read(names, text, &mut Rule::new(heap)?).map_err(told))
    }

    // A list of so many names: any, and then names of three letters.
    fn many_names(heap: Global, count: u8) -> Result<Vec<Entry>, AllocError> {
        let mut names = Vec::new(heap);
        for i in 0..count {
            let name = if i == 0 {
                *b"any"
            } else {
                [b'x', b'a' + i / 16, b'a' + i % 16]
            };
            names.push(entry(&name))?;
        }
        Ok(names)
    }

    #[test]
    fn entries(rt: HostRuntime) -> Result<(), Fail> {
        let heap = rt.alloc();
        let table: [(&[u8], bool); 14] = [
            (b"b", true),
            (b"b-9", true),
            (b"nil2", true),
            (b"abcdefghijklmnop", true),
            (b"", false),
            (b"nil", false),
            (b"void", false),
            (b"any", false),
            (b"a", false),
            (b"9", false),
            (b"-b", false),
            (b"B", false),
            (b"b\0b", false),
            (b"b b", false),
        ];
        for (name, good) in table {
            let names = [entry(b"any"), entry(b"a"), entry(name), entry(b"nil")];
            let place = if good { 48 } else { 32 };
            assert_eq!(rt; answer(heap, &names, b"a")?, Err((18, place)));
        }
        Ok(())
    }

    #[test]
    fn lists(rt: HostRuntime) -> Result<(), Fail> {
        let heap = rt.alloc();
        assert_eq!(rt; answer(heap, &[], b"any")?, Err((18, 0)));
        assert_eq!(rt;
            answer(heap, &[entry(b"a"), entry(b"any")], b"a")?,
            Err((18, 0))
        );
        assert_eq!(rt; answer(heap, &[entry(b"any")], b"any")?, Ok(()));
        assert_eq!(rt; answer(heap, &many_names(heap, 128)?, b"any xaf")?, Ok(()));
        assert_eq!(rt;
            answer(heap, &many_names(heap, 129)?, b"any")?,
            Err((18, 0))
        );
        Ok(())
    }

    #[test]
    fn names_of_a_list(rt: HostRuntime) -> Result<(), Fail> {
        let entries = [entry(b"any"), entry(b"abcdefghijklmnop")];
        let Ok(names) = Names::new(&entries) else {
            return Err(Fail::new("refused"));
        };
        assert_eq!(rt; names.count(), 2);
        assert_eq!(rt; names.name(0), Some(b"any".as_slice()));
        assert_eq!(rt; names.name(1), Some(b"abcdefghijklmnop".as_slice()));
        assert_eq!(rt; names.name(2), None);
        Ok(())
    }

    #[test]
    fn order_of_checks(rt: HostRuntime) -> Result<(), Fail> {
        let heap = rt.alloc();
        let long = vec![in heap; b'9'; 4097]?;
        let good = [entry(b"any"), entry(b"a")];
        let bad = [entry(b"any"), entry(b"any")];
        assert_eq!(rt; answer(heap, &bad, &long)?, Err((18, 16)));
        assert_eq!(rt; answer(heap, &bad, b"9")?, Err((18, 16)));
        assert_eq!(rt; answer(heap, &good, &long)?, Err((17, 4096)));
        assert_eq!(rt; answer(heap, &good, b"b 9")?, Err((15, 0)));
        assert_eq!(rt; answer(heap, &good, b"a 9 b")?, Err((12, 2)));
        Ok(())
    }

    #[test]
    fn opposite_tests(rt: HostRuntime) -> Result<(), Fail> {
        let heap = rt.alloc();
        let names = many_names(heap, 128)?;
        let mut rule = Rule::new(heap)?;
        assert!(rt; read(&names, b"! xhp", &mut rule).is_ok());
        let leaf = Node {
            shape: Shape::Leaf(255),
            size: 1,
        };
        assert_eq!(rt; rule.nodes(), [leaf].as_slice());
        Ok(())
    }

    #[test]
    fn a_refusal_leaves_the_rule(rt: HostRuntime) -> Result<(), Fail> {
        let heap = rt.alloc();
        let names = [entry(b"any"), entry(b"a")];
        let mut rule = Rule::new(heap)?;
        assert!(rt; read(&names, b"a a", &mut rule).is_ok());
        for text in [b"a a a )", b"a a a c", b"a a a |"] {
            assert!(rt; read(&names, text, &mut rule).is_err());
            assert!(rt; rule.adopt().is_err());
            assert!(rt; rule.nodes().len() == 3);
        }
        assert!(rt; read(&names, b"a", &mut rule).is_ok());
        assert!(rt; rule.nodes().len() == 1);
        Ok(())
    }
}
