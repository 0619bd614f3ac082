// Examples, run as tests: a table of stamps, choosing on hand-made answers, the posts of a job, and stores that a caller takes
// out of a Result.
#![tactic(auto)]

#[cfg(test)]
mod stores;

#[cfg(test)]
mod tests {
    use causal::answers::Answers;
    use causal::cut::Cut;
    use job::{BALANCE, OFFICE, OLD_CARD, REPLACEMENT, post};
    use stamps::limits::FACTOR;
    use stamps::refusal::Refusal;
    use stamps::stamp::{Stamp, StampParts};
    use stamps::value::Value;
    use versions::row::Row;
    use versions::version::Version;

    // A version of a key that says Free and rests on one stamp at another key, or on none.
    fn resting(key: u32, counter: u32, on: Option<(usize, u32)>) -> Version {
        let stamps = std::array::from_fn(|place| match on {
            Some((other, number)) if other == place => Stamp { number },
            _ => Stamp::NONE,
        });
        Version {
            key,
            value: Value::Free,
            stamp: Stamp {
                number: counter.saturating_mul(FACTOR),
            },
            row: Row { stamps },
        }
    }

    // The outcome of choosing over some versions from an empty cut.
    fn chosen_of(versions: &[Version]) -> Result<(u32, u32), Refusal> {
        let mut cut = Cut::new();
        let mut answers = Answers::new();
        for version in versions {
            answers.note(version.key, version)?;
        }
        Ok(cut.choose(&answers))
    }

    // counter, terminal, and the stamp's number, or none where it is refused
    const MADE: [(u32, u32, Option<u32>); 8] = [
        (1, 3, Some(11)),
        (1_000_000, 7, Some(8_000_007)),
        (1, 0, Some(8)),
        (2, 0, Some(16)),
        (0, 0, None),
        (1_000_001, 0, None),
        (1, 8, None),
        (0, 7, None),
    ];

    #[test]
    fn stamps_are_made_and_parted(rt: HostRuntime) {
        for (counter, terminal, made) in MADE {
            let stamp = made.map(|number| Stamp { number });
            assert!(rt; Stamp::make(counter, terminal) == stamp.ok_or(Refusal::OutOfRange));
            if let Some(stamp) = stamp {
                assert!(rt; stamp.parts() == Ok(Some(StampParts { counter, terminal })));
            }
        }
        for number in [1, 7, 8_000_008, u32::MAX] {
            assert!(rt; Stamp { number }.parts() == Err(Refusal::OutOfRange));
        }
        assert!(rt; Stamp::NONE.parts() == Ok(None));
        assert!(rt; Refusal::OutOfRange.number() == 14);
    }

    // Each rests on a stamp that only the other has: together they enter, alone neither does.
    #[test]
    fn two_that_need_each_other_enter_together(rt: HostRuntime) {
        let one = resting(1, 5, Some((2, 24)));
        let other = resting(2, 6, Some((1, 16)));
        assert!(rt; chosen_of(&[one, other]) == Ok((2, 0)));
        assert!(rt; chosen_of(&[one]) == Ok((0, 1)));
        assert!(rt; chosen_of(&[other]) == Ok((0, 1)));
    }

    // 1 rests on 2, and 2 on 3: without 3 both are withheld, though 1 finds 2 among the answers.
    #[test]
    fn a_chain_of_three_enters_whole_or_not_at_all(rt: HostRuntime) {
        let last = resting(1, 3, Some((2, 16)));
        let middle = resting(2, 2, Some((3, 8)));
        let first = resting(3, 1, None);
        assert!(rt; chosen_of(&[last, middle]) == Ok((0, 2)));
        assert!(rt; chosen_of(&[last, middle, first]) == Ok((3, 0)));
        assert!(rt; chosen_of(&[last, first]) == Ok((1, 1)));
    }

    // Each post of the job stands above those before it and rests on them; a post out of range changes nothing.
    #[test]
    fn posts_of_a_job_rest_on_each_other(rt: HostRuntime) {
        let posts = [
            (OLD_CARD, Value::Barred, 11, 0),
            (REPLACEMENT, Value::Replaced(4711), 19, 1),
            (BALANCE, Value::Amount(1250), 27, 2),
        ];
        let mut office = Cut::new();
        for (key, value, number, causes) in posts {
            let posted = post(&mut office, OFFICE, key, value);
            assert!(rt;
                posted.is_ok_and(|draft| draft.version.stamp.number == number
                    && draft.causes == causes)
            );
        }
        let refused = post(&mut office, 8, BALANCE, Value::Free);
        assert!(rt; refused.is_err_and(|refusal| refusal == Refusal::OutOfRange));
        let held = office.read(BALANCE);
        assert!(rt;
            held.is_ok_and(|held| held.is_some_and(|version| version.value == Value::Amount(1250)))
        );
    }
}
