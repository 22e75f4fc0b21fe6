//! Laws of the word that is told of a line, as the contract of an empty function.

ghost use Rattle.fw_check.specs.Laws.{EarlierFit, NoneIsACommand, ToldIsRefused};

/// Of a line whose first word is a command either no word is told, and it is that command, or the first word that the form refuses.
pub fn the_first_misfit_is_told()
    ensures none { NoneIsACommand }
    ensures earlier { EarlierFit }
    ensures refused { ToldIsRefused }
{}
