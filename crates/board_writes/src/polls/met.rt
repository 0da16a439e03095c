ghost use Rattle.std.specs.Prelude.{◌≡◌, ◌≤◌, ◌||◌, length, not};
ghost use Rattle.std.specs.List.{list_any, prefix_len};
ghost use Rattle.safe_model.specs.Raisers.{is_met_by};
ghost use Rattle.board_writes.specs.Stretches.{count_to_last};

use crate::polls::awaited::Awaited;

/// How many values are looked at together, with no branch between them.
const AT_ONCE: usize = 64;

impl Awaited {
    /// Whether one of these values meets it.
    pub(crate) fn is_any_met(&self, values: &[u32]) -> bool
        ensures { result ≡ list_any (is_met_by self.now.want) values.now }
    {
        let mut met = false;
        for value in values {
            met = either(met, self.is_met_by(*value));
        }
        met
    }

    /// How many of these values stand before the first that meets it.
    pub(crate) fn count_unmet(&self, values: &[u32]) -> usize
        ensures within { result ≤ length values.now }
        ensures count { result ≡ prefix_len
            (λ value. not (is_met_by self.now.want value)) values.now }
    {
        let mut left = values;
        while left.len() >= AT_ONCE {
            let (these, others) = left.split_at(AT_ONCE);
            let count = self.count_close(these);
            if count < AT_ONCE {
                return values.len() - left.len() + count;
            }
            left = others;
        }
        values.len() - left.len() + self.count_close(left)
    }

    /// The same of a few.
    fn count_close(&self, values: &[u32]) -> usize
        ensures within { result ≤ length values.now }
        ensures count { result ≡ prefix_len
            (λ value. not (is_met_by self.now.want value)) values.now }
    {
        if !self.is_any_met(values) {
            return values.len();
        }
        let mut count = 0;
        while count < values.len() && !self.is_met_by(values[count]) {
            count += 1;
        }
        count
    }

    /// How many of these values there are up to and with the last that meets it.
    pub(crate) fn count_to_last(&self, values: &[u32]) -> usize
        ensures within { result ≤ length values.now }
        ensures count { result ≡
            count_to_last (is_met_by self.now.want) values.now }
    {
        let mut left = values;
        while left.len() >= AT_ONCE {
            let (others, these) = left.split_at(left.len() - AT_ONCE);
            let count = self.count_close_to_last(these);
            if count > 0 {
                return others.len() + count;
            }
            left = others;
        }
        self.count_close_to_last(left)
    }

    /// The same of a few.
    fn count_close_to_last(&self, values: &[u32]) -> usize
        ensures within { result ≤ length values.now }
        ensures count { result ≡
            count_to_last (is_met_by self.now.want) values.now }
    {
        if !self.is_any_met(values) {
            return 0;
        }
        let mut count = values.len();
        while count > 0 && !self.is_met_by(values[count - 1]) {
            count -= 1;
        }
        count
    }
}

fn either(a: bool, b: bool) -> bool
    ensures { result ≡ (a || b) }
{
    a | b
}
