//! The line of a request that is handed in over HTTP.
ghost use Rattle.std.specs.Prelude.{◌≡◌};
ghost use Rattle.hall.specs.Line.{without_line_end};

/// The body without the one line end at its end.
pub(crate) fn without_line_end(body: &[u8]) -> &[u8]
    ensures { result.now ≡ without_line_end body.now }
{
    match body {
        [line @ .., b'\r', b'\n'] => line,
        [line @ .., b'\n'] => line,
        _ => body,
    }
}
