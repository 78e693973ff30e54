//! The options, by what they set.
ghost use Rattle.std.specs.Prelude.{◌≡◌};
ghost use Rattle.command_words.specs.Settings.{name_of, least_of, most_of, default_of};

/// What an option sets.
#[derive(Clone, Copy, Debug, PartialEq, Eq)]
pub enum Setting {
    Port,
    Partitions,
    Workers,
    Start,
    Clients,
    Count,
}

impl Setting {
    /// The option's name, without hyphens.
    pub(crate) fn name<'a>(self) -> &'a str
        ensures { result.now ≡ name_of self }
    {
        match self {
            Setting::Port => "port",
            Setting::Partitions => "partitions",
            Setting::Workers => "workers",
            Setting::Start => "start",
            Setting::Clients => "clients",
            Setting::Count => "count",
        }
    }

    /// The least value that may be given.
    pub(crate) fn least(self) -> u32
        ensures { result ≡ least_of self }
    {
        match self {
            Setting::Start | Setting::Count => 0,
            _ => 1,
        }
    }

    /// The greatest value that may be given.
    pub(crate) fn most(self) -> u32
        ensures { result ≡ most_of self }
    {
        match self {
            Setting::Port => 65_535,
            Setting::Partitions => 64,
            Setting::Workers => 62,
            Setting::Start => 9_999_999,
            Setting::Clients => 16,
            Setting::Count => 100_000,
        }
    }

    /// The value where none is given.
    pub(crate) fn default(self) -> u32
        ensures { result ≡ default_of self }
    {
        match self {
            Setting::Port => 8_000,
            Setting::Partitions => 16,
            Setting::Workers => 8,
            Setting::Start => 1,
            Setting::Clients => 4,
            Setting::Count => 1_000,
        }
    }
}
