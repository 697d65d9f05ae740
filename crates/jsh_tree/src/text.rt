ghost use Rattle.std.specs.Prelude.{◌≡◌};
ghost use Rattle.jsh_tree.specs.Text.{is_white};

/// The most bytes of one source.
pub const MOST_SOURCE: usize = 65_536;

/// Whether a byte is white space (JLS 3.4, 3.6). No byte of a longer UTF-8 sequence is.
pub fn is_white(byte: u8) -> bool
    ensures { result ≡ is_white byte }
{
    matches!(byte, b' ' | b'\t' | b'\x0c' | b'\r' | b'\n')
}
