//! The options of `build`: their words.

ghost use Rattle.std.specs.Prelude.{◌≡◌, drop};
ghost use Rattle.sx_spec.specs.Command as usage;

use sx_spec::OptionName;

/// The word for an option.
pub fn option_word(name: OptionName) -> &'static str
    ensures { result.now ≡ usage.option_word name }
{
    match name {
        OptionName::Seeds => "--seeds",
        OptionName::Method => "--method",
        OptionName::LogBucket => "--log-bucket",
        OptionName::SigBits => "--sig-bits",
        OptionName::HandleBits => "--handle-bits",
        OptionName::Signed => "--signed",
        OptionName::Values => "--values",
    }
}

/// The word for an option without the two dashes in front.
pub fn option_id(name: OptionName) -> &'static str
    ensures { result.now ≡ drop 2 (usage.option_word name) }
{
    &option_word(name)[2..]
}
