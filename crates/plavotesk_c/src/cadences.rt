// The one-hour cadence, exported: how long a level lasts, which begins and which ends in a second of the hour.
ghost use Rattle.plavotesk.specs.Promise.{LevelSecondsPromise, SecondBeginningPromise, SecondEndingPromise};

// How many seconds a level lasts; 19.
#[unsafe(no_mangle)]
pub extern "C" fn plv_level_seconds(level: u8, seconds: &mut u16) -> u8
    ensures { LevelSecondsPromise level seconds.old (result, seconds.new) }
{
    plavotesk::cadences::plv_level_seconds(level, seconds)
}

// The highest level that begins in a second of the hour; 19.
#[unsafe(no_mangle)]
pub extern "C" fn plv_second_beginning(second: u16, level: &mut u8) -> u8
    ensures { SecondBeginningPromise second level.old (result, level.new) }
{
    plavotesk::cadences::plv_second_beginning(second, level)
}

// The highest level that ends with a second of the hour; 19.
#[unsafe(no_mangle)]
pub extern "C" fn plv_second_ending(second: u16, level: &mut u8) -> u8
    ensures { SecondEndingPromise second level.old (result, level.new) }
{
    plavotesk::cadences::plv_second_ending(second, level)
}
