// Entries of the board: what one agent's position at an hour is written in.
#![tactic(auto)]

pub mod by_source;
pub mod joining;
pub mod kinds;
pub mod net;
pub mod reversible;
pub mod source;
pub mod total;
pub mod turnover;

#[cfg(test)]
mod tests {
    use crate::joining::Joining;
    use crate::kinds::{BySource, Net, Turnover};
    use crate::reversible::Reversible;
    use crate::source::Source;
    use crate::total::total;

    #[test]
    fn net_wraps_and_turns_back(rt: HostRuntime) {
        let most = Net { units: i64::MAX };
        let three = Net::of_quantity(3, Source::Incentivised);
        assert_eq!(rt; most.join(three).units, i64::MIN + 2);
        assert_eq!(rt; three.opposite().units, -3);
        assert_eq!(rt; Net { units: i64::MIN }.opposite().units, i64::MIN);
        assert_eq!(rt; total(&[three, most, three, most], 0, 2, 9).units, 6);
    }

    #[test]
    fn sources_stay_apart(rt: HostRuntime) {
        let four = BySource::of_quantity(4, Source::Conventional);
        let five = BySource::of_quantity(5, Source::Incentivised).opposite();
        let sum = total(&[four, five, four], 1, 1, 2);
        assert_eq!(rt; sum.conventional, 4);
        assert_eq!(rt; sum.incentivised, -5);
    }

    #[test]
    fn turnover_adds_up(rt: HostRuntime) {
        let all = [
            Turnover {
                sold: 1,
                bought: 20,
            },
            Turnover {
                sold: 3,
                bought: 40,
            },
        ];
        let sum = total(&all, 0, 1, 2);
        assert_eq!(rt; sum.sold, 4);
        assert_eq!(rt; sum.bought, 60);
        assert_eq!(rt; total(&all, usize::MAX, 1, 2).sold, 0);
    }
}
