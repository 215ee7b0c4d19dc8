//! The parts of a table.

ghost use Rattle.std.specs.Prelude.{◌≡◌, ◌==◌, ◌-◌, ◌/◌, ◌%◌, slice_index};
ghost use Rattle.cap_gnu.specs.Adopted.{IsLaidOut, bucket_count, bucket_words, filter_end, first_index, has_hash, index_words};

/// How many words stand before those of the buckets.
fn filter_words(words: &[u32]) -> usize
    requires { IsLaidOut words.now }
    ensures { result ≡ filter_end words.now }
{
    4 + 2 * words[2] as usize
}

/// The least index that has a word.
pub(crate) fn least_index(words: &[u32]) -> u32
    requires { IsLaidOut words.now }
    ensures { result ≡ first_index words.now }
{
    words[1]
}

/// The words of the buckets.
pub(crate) fn buckets(words: &[u32]) -> &[u32]
    requires { IsLaidOut words.now }
    ensures { result.now ≡ bucket_words words.now }
{
    let start = filter_words(words);
    &words[start..start + words[0] as usize]
}

/// The words of the indices.
pub(crate) fn indices(words: &[u32]) -> &[u32]
    requires { IsLaidOut words.now }
    ensures { result.now ≡ index_words words.now }
{
    &words[filter_words(words) + words[0] as usize..]
}

/// The word of the bucket into which a hash falls.
pub(crate) fn bucket_for(words: &[u32], hash: u32) -> u32
    requires { IsLaidOut words.now }
    ensures { result ≡ slice_index (bucket_words words.now) (hash % bucket_count words.now) }
{
    buckets(words)[hash as usize % words[0] as usize]
}

/// The number at a place; 0 past the end.
pub(crate) fn number_at(numbers: &[u32], i: usize) -> u32
    ensures { result ≡ slice_index numbers.now i }
{
    match numbers.get(i) {
        Some(number) => *number,
        None => 0,
    }
}

/// Whether an index's word has the upper 31 bits of a hash.
pub(crate) fn is_hash_at(words: &[u32], i: u32, hash: u32) -> bool
    requires { IsLaidOut words.now }
    ensures { result ≡ has_hash words.now i hash }
{
    let place = i.saturating_sub(least_index(words)) as usize;
    number_at(indices(words), place) / 2 == hash / 2
}
