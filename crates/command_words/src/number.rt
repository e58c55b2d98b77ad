//! Numbers in words.
ghost use Rattle.std.specs.Prelude.{◌≡◌};
ghost use Rattle.command_words.specs.Commands.{within, number_in};

use relay_base::number_of;

/// The number that a word writes, where it is in a range.
#[tactic(auto, unfolding(crate::specs::Commands::number_in))]
pub fn number_in(least: u32, most: u32, word: &str) -> Option<u32>
    ensures { result ≡ number_in least most word.now }
{
    match number_of(word.as_bytes()) {
        Some(n) if u64::from(least) <= n && n <= u64::from(most) => Some(n as u32),
        _ => None,
    }
}
