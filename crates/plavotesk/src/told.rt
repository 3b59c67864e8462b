// What an exported call tells of an answer.
ghost use Rattle.std.specs.Prelude.{◌≡◌};
ghost use Rattle.ground.specs.Refusals.{on_paper};
ghost use Rattle.plavotesk.specs.Meaning.{told};

use ground::Numbered;

// An accepted value is put into its lent place, and 0 is told; a refusal is told by its number, and the place keeps what it held.
pub(crate) fn told<T: Copy, E: Numbered + Copy>(answer: Result<T, E>, place: &mut T) -> u8
    ensures { (result, place.new) ≡ told (on_paper E.refusals answer) place.old }
{
    match answer {
        Ok(value) => {
            *place = value;
            0
        }
        Err(why) => why.number(),
    }
}
