// How many of a list's bytes there are to take.
ghost use Rattle.std.specs.Prelude.{◌≡◌, length};
ghost use Rattle.telling.specs.Counts.{IsPrefixLen, clamp_len};

// As many of the list's first bytes as are asked for and are there; none where the number asked for is below 0.
pub fn prefix_len(asked: isize, list: &[u8]) -> usize
    ensures in_bounds { IsPrefixLen result list.now }
    ensures value { result ≡ clamp_len asked (length list.now) }
{
    // (Arms and no `unwrap_or(0).min(..)`: so the edit takes_more_than_are_there changes the numbers from 0 on alone.)
    match usize::try_from(asked) {
        Ok(asked) => asked.min(list.len()),
        Err(_) => 0,
    }
}
