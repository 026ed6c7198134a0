// Tests of lockstep: sets of numbers at the edges of their words.
#![tactic(auto)]

#[cfg(test)]
mod tests {
    use lockstep::NodeSet;
    use std::test::Fail;

    // Numbers at the edges of words, the end mark of 512 nodes the last.
    const NUMBERS: [usize; 6] = [0, 1, 63, 64, 511, 512];

    // The set of those numbers.
    fn edges() -> NodeSet {
        let mut set = NodeSet::empty();
        for n in NUMBERS {
            set.insert(n);
        }
        set
    }

    #[test]
    fn members(rt: HostRuntime) -> Result<(), Fail> {
        let set = edges();
        for n in 0..600usize {
            assert_eq!(rt; set.contains(n), NUMBERS.contains(&n));
        }
        let mut from = 0;
        for n in NUMBERS {
            assert_eq!(rt; set.next_from(from), Some(n));
            from = n + 1;
        }
        assert_eq!(rt; set.next_from(from), None);
        Ok(())
    }

    #[test]
    fn counts(rt: HostRuntime) -> Result<(), Fail> {
        let set = edges();
        for (bound, count) in [
            (0, 0),
            (1, 1),
            (64, 3),
            (65, 4),
            (512, 5),
            (513, 6),
            (9999, 6),
        ] {
            assert_eq!(rt; set.count_below(bound), count);
        }
        Ok(())
    }

    #[test]
    fn two_sets(rt: HostRuntime) -> Result<(), Fail> {
        let mut one = NodeSet::empty();
        one.insert(512);
        one.insert(600);
        assert!(rt; edges().meets(&one) && !one.contains(600));
        let mut other = NodeSet::empty();
        other.insert(2);
        assert!(rt; !one.meets(&other) && !edges().meets(&other));
        one.unite(&other);
        assert!(rt; one.meets(&other) && one.contains(512) && one.contains(2) && !one.contains(0));
        Ok(())
    }
}
