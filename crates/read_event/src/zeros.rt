// Zeros at the front of a store: absent players' cells and bits.
ghost use Rattle.std.specs.Prelude.{◌≡◌, ◌≤◌, length};
ghost use Rattle.layout.specs.declared.columns.Family.TheVariants.{Pre, Post};
ghost use Rattle.game.specs.Frames.{slots_of};
ghost use Rattle.read_event.specs.Inner.{player_cells, presence_cells, zeros};

use game::frames::Frames;
use layout::columns::Family;
use layout::listing::columns;

// Zeros for all rows and bits of players: those of absent ones stay.
pub fn clear_players(
    f: Frames,
    slots: usize,
    pres: &mut [u32],
    posts: &mut [u32],
    presence: &mut [u8],
)
    requires { (slots ≡ length (slots_of f)) × (slots ≤ 8) × (f.counts.frames ≤ 1048576)
        × (player_cells f Pre ≤ length pres.old) × (player_cells f Post ≤ length posts.old) × (presence_cells f ≤ length presence.old) }
    ensures { (pres.new ≡ zeros (player_cells f Pre) pres.old)
        × (posts.new ≡ zeros (player_cells f Post) posts.old)
        × (presence.new ≡ zeros (presence_cells f) presence.old) }
{
    let n = f.counts.frames;
    pres[..slots * (columns(Family::Pre, f.version) * n)].fill(0);
    posts[..slots * (columns(Family::Post, f.version) * n)].fill(0);
    presence[..slots * ((n + 7) / 8)].fill(0);
}
