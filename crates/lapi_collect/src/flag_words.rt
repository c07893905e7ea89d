ghost use Rattle.std.specs.Prelude.{◌≤◌, length};
ghost use Rattle.lapi_collect.specs.FlagWords.{IsLeastBetween};

/// The least number whose flag is set in the words from `first` up to but not `end`.
pub(crate) fn least_between(words: &[u64], first: usize, end: usize) -> Option<u32>
    requires within { end ≤ length words.now }
    requires small { length words.now ≤ 67108864 }
    ensures { IsLeastBetween words.now first end result }
{
    for i in first..end {
        let word = words[i];
        if word != 0 {
            return Some(64 * i as u32 + word.trailing_zeros());
        }
    }
    None
}
