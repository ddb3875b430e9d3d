// A site: a desk that keeps sixty-four values.
ghost use Rattle.std.specs.Prelude.{◌≡◌};
ghost use Rattle.letter.specs.Desks.{desk_size};

use letter::desks::Desk;

mod climbing;
mod requests;

#[derive(Drop)]
pub struct Site<const P: u64> {
    desk: Desk<P>,
    ghost size: { desk_size desk ≡ 64 },
}
