ghost use Rattle.std.specs.Prelude.{◌≡◌, ◌==◌, position};
ghost use Rattle.std.specs.List.{before_first};

// Where the first `stop` is, if there is one. By itself, as what a chain finds is proved where it is returned.
fn find(bytes: &[u8], stop: u8) -> Option<usize>
    ensures { result ≡ position (λ b. b == stop) bytes.now }
{
    bytes.iter().position(|b| *b == stop)
}

// The part before the first `stop`, or all where there is none.
pub(crate) fn up_to(bytes: &[u8], stop: u8) -> &[u8]
    ensures { result.now ≡ before_first (λ b. b == stop) bytes.now }
{
    match find(bytes, stop) {
        Some(end) => &bytes[..end],
        None => bytes,
    }
}
