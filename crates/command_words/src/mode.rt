//! The commands without their values.
ghost use Rattle.std.specs.Prelude.{◌≡◌, Some};
ghost use Rattle.command_words.specs.Modes.{word_of, settings_of};

use crate::setting::Setting;

static STDIO_SETTINGS: [Setting; 1] = [Setting::Partitions];

static SERVE_SETTINGS: [Setting; 3] = [Setting::Port, Setting::Partitions, Setting::Workers];

static LOAD_SETTINGS: [Setting; 4] = [
    Setting::Start,
    Setting::Clients,
    Setting::Count,
    Setting::Partitions,
];

/// What the program is to do.
#[derive(Clone, Copy, Debug, PartialEq, Eq)]
pub enum Mode {
    Stdio,
    Serve,
    Load,
}

impl Mode {
    /// The word that states it.
    pub(crate) fn word<'a>(self) -> &'a str
        ensures { result.now ≡ word_of self }
    {
        match self {
            Mode::Stdio => "stdio",
            Mode::Serve => "serve",
            Mode::Load => "load",
        }
    }

    /// The mode that a word states.
    pub(crate) fn named(word: &str) -> Option<Mode>
        ensures { (mode : Mode) → word.now ≡ word_of mode → result ≡ Some mode }
    {
        match word {
            "stdio" => Some(Mode::Stdio),
            "serve" => Some(Mode::Serve),
            "load" => Some(Mode::Load),
            _ => None,
        }
    }

    /// The options that it takes.
    pub(crate) fn settings(self) -> &'static [Setting]
        ensures { result.now ≡ settings_of self }
    {
        match self {
            Mode::Stdio => STDIO_SETTINGS.as_slice(),
            Mode::Serve => SERVE_SETTINGS.as_slice(),
            Mode::Load => LOAD_SETTINGS.as_slice(),
        }
    }
}
