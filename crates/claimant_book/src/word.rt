//! A slot's word: the stage in the high half, the count of holds in the low one.
ghost use Rattle.std.specs.Prelude.{◌≡◌, ◌+◌, ◌*◌, ◌/◌, ◌%◌};
ghost use Rattle.claimant_book.specs.Stages.{word_stage, word_count};
ghost use Rattle.claimant_book.specs.Replies.{IsStageNumber};

use crate::reply::Stage;

/// One more stage.
pub(crate) const STAGE: u64 = 1 << 32;

/// The word of a slot with the base hold alone.
pub(crate) fn base_word(stage: u32) -> u64
    ensures { result ≡ stage * 4294967296 + 1 }
{
    u64::from(stage) * STAGE + 1
}

pub(crate) fn number_of(word: u64) -> u32
    ensures { result ≡ word_stage word }
{
    (word / STAGE) as u32
}

pub(crate) fn count_of(word: u64) -> u32
    ensures { result ≡ word_count word }
{
    (word % STAGE) as u32
}

/// Both the live and the retired stage of a generation g give g: they are 2 g - 1 and 2 g.
pub(crate) fn generation_of(number: u32) -> u32
    ensures { result ≡ number / 2 + number % 2 }
{
    number / 2 + number % 2
}

pub(crate) fn stage_of(number: u32) -> Stage
    ensures { IsStageNumber result number }
{
    if number == 0 {
        Stage::Unused
    } else if number % 2 == 1 {
        Stage::Live(generation_of(number))
    } else {
        Stage::Retired(generation_of(number))
    }
}
