// Tests of rules: taking lists of records, and giving a rule's nodes out as records.
#![tactic(auto)]

#[cfg(test)]
mod tests {
    use refusals::Fault;
    use rules::{Record, Rule};
    use std::alloc::Global;
    use std::process::Abort;
    use std::test::Fail;

    // A record of these numbers.
    fn record(code: u32, test: u32, size: u32) -> Record {
        Record { code, test, size }
    }

    // The rule `(a | b)* a`, where a is test 7 and b is test 9.
    const SAMPLE: [Record; 6] = [
        Record {
            code: 2,
            test: 7,
            size: 1,
        },
        Record {
            code: 2,
            test: 9,
            size: 1,
        },
        Record {
            code: 4,
            test: 0,
            size: 3,
        },
        Record {
            code: 5,
            test: 0,
            size: 4,
        },
        Record {
            code: 2,
            test: 7,
            size: 1,
        },
        Record {
            code: 3,
            test: 0,
            size: 6,
        },
    ];

    // Whether the rule's nodes are those of these records.
    fn holds(rule: &Rule, records: &[Record]) -> bool {
        rule.nodes().len() == records.len()
            && rule
                .nodes()
                .iter()
                .zip(records)
                .all(|(node, record)| Record::from(*node) == *record)
    }

    // Whether the rule takes the records, and then holds their nodes. Here and below a condition that a test asserts, so a bool.
    fn taken(rule: &mut Rule, records: &[Record]) -> bool {
        rule.take(records).is_ok() && holds(rule, records)
    }

    // Whether the rule refuses the records at this place, by the refusal of node lists, and leaves nothing in its draft.
    fn refused(rule: &mut Rule, records: &[Record], place: usize) -> bool {
        let told = |fault: Fault| (fault.refusal.number(), fault.place);
        rule.take(records).map_err(told) == Err((19, place)) && rule.adopt().is_err()
    }

    // Lists of one record: each shape, and numbers that no node has.
    #[test]
    fn single_records(rt: HostRuntime) -> Result<(), Fail> {
        let mut rule = Rule::new(rt.alloc())?;
        for (code, test, size) in [(0, 0, 1), (1, 0, 1), (2, 0, 1), (2, 7, 1), (2, 255, 1)] {
            assert!(rt; taken(&mut rule, &[record(code, test, size)]));
        }
        let bad = [
            (3, 0, 1),
            (3, 0, 3),
            (4, 0, 1),
            (5, 0, 1),
            (5, 0, 2),
            (6, 0, 1),
            (255, 0, 1),
            (4294967295, 0, 1),
            (0, 0, 0),
            (1, 0, 2),
            (2, 0, 65535),
            (0, 0, 65537),
            (0, 0, 4294967295),
            (2, 256, 1),
            (2, 4294967295, 1),
            (0, 1, 1),
            (1, 255, 1),
        ];
        for (code, test, size) in bad {
            assert!(rt; refused(&mut rule, &[record(code, test, size)], 0));
        }
        assert!(rt; holds(&rule, &[record(2, 255, 1)]));
        Ok(())
    }

    // Lists of a few records; a refused one leaves the rule as it was.
    #[test]
    fn short_lists(rt: HostRuntime) -> Result<(), Fail> {
        let mut rule = Rule::new(rt.alloc())?;
        let leaf = record(2, 7, 1);
        assert!(rt; taken(&mut rule, &SAMPLE));
        assert!(rt; refused(&mut rule, &[], 0));
        let seconds = [
            // two trees
            (leaf, 2),
            (record(3, 0, 2), 1),
            (record(5, 0, 0), 1),
            (record(5, 0, 65535), 1),
            (record(5, 0, 4294967295), 1),
            (record(5, 1, 2), 1),
        ];
        for (second, place) in seconds {
            assert!(rt; refused(&mut rule, &[leaf, second], place));
        }
        // a test on a chain, and a size that leaves a child out
        for third in [record(3, 1, 3), record(4, 0, 2), record(5, 0, 3)] {
            assert!(rt; refused(&mut rule, &[leaf, leaf, third], 2));
        }
        assert!(rt; holds(&rule, &SAMPLE));
        Ok(())
    }

    // A leaf, then a leaf and a chain in turn: each chain's left child is all that stands before its right child.
    fn left_deep(heap: Global) -> Result<Vec<Record>, Fail> {
        let mut list = Vec::new(heap);
        list.push(record(2, 1, 1))?;
        for i in 1..256 {
            list.push(record(2, 2, 1))?;
            list.push(record(3, 0, 2 * i + 1))?;
        }
        Ok(list)
    }

    // The leaves first, and then the chains: each chain's right child is the chain before it.
    fn right_deep(heap: Global) -> Result<Vec<Record>, Fail> {
        let mut list = vec![in heap; record(2, 1, 1); 256]?;
        for i in 1..256 {
            list.push(record(3, 0, 2 * i + 1))?;
        }
        Ok(list)
    }

    // A list of 511 nodes with a repeat over it, and with one more.
    fn limits(rt: &impl Abort, rule: &mut Rule, mut list: Vec<Record>) -> Result<(), Fail> {
        assert!(rt; taken(rule, &list));
        list.push(record(5, 0, 512))?;
        assert!(rt; taken(rule, &list));
        list.push(record(5, 0, 513))?;
        assert!(rt; refused(rule, &list, 512));
        assert!(rt; rule.nodes().len() == 512);
        Ok(())
    }

    // Lists at the limit, and past it.
    #[test]
    fn long_lists(rt: HostRuntime) -> Result<(), Fail> {
        let mut rule = Rule::new(rt.alloc())?;
        limits(&rt, &mut rule, left_deep(rt.alloc())?)?;
        limits(&rt, &mut rule, right_deep(rt.alloc())?)?;
        let mut list = [record(2, 1, 1); 600];
        assert!(rt; refused(&mut rule, &list[0..512], 512));
        list[3] = record(6, 0, 0);
        assert!(rt; refused(&mut rule, &list[0..512], 3));
        assert!(rt; refused(&mut rule, &list, 512));
        Ok(())
    }

    // A rule's nodes, given out and taken into another rule.
    #[test]
    fn out_and_in(rt: HostRuntime) -> Result<(), Fail> {
        let mut from = Rule::new(rt.alloc())?;
        assert!(rt; taken(&mut from, &SAMPLE));
        let list: Vec<Record> = from
            .nodes()
            .iter()
            .map(|node| Record::from(*node))
            .collect(rt.alloc())?;
        let mut to = Rule::new(rt.alloc())?;
        assert!(rt; holds(&to, &[record(0, 0, 1)]));
        assert!(rt; taken(&mut to, &list));
        assert!(rt; holds(&to, &SAMPLE));
        Ok(())
    }
}
