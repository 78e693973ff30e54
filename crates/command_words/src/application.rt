//! The commands and their options, as `clap` is told of them.
ghost use Rattle.std.specs.Prelude.{◌≡◌, false, IfOk};
ghost use Rattle.clap.specs.Words.{app_of, shape_of, rule_of};
ghost use Rattle.clap.specs.declared.builder.Command.TheViews.{out-Command as fields_of};
ghost use Rattle.command_words.specs.Application.{application_app, mode_shape, setting_rule};
ghost use Rattle.command_words.specs.Settings.{name_of};

use crate::mode::Mode;
use crate::setting::Setting;
use clap::{Arg, Command};
use std::alloc::{AllocError, Global};

/// The option that sets this.
fn option<'a>(alloc: Global, setting: Setting) -> Arg<'a>
    ensures rule { rule_of result ≡ setting_rule setting }
    ensures local { result.global ≡ false }
{
    let name = setting.name();
    Arg::new(alloc, name).long(name)
}

/// The command with its options.
fn subcommand<'a>(alloc: Global, mode: Mode) -> Result<Command<'a>, AllocError>
    ensures shape { IfOk result (λ command. shape_of command ≡ mode_shape mode) }
    ensures local { IfOk result (λ command. (fields_of command).has_globals ≡ false) }
{
    let mut command = Command::new(alloc, mode.word());
    for setting in mode.settings() {
        command = command.arg(option(alloc, *setting))?;
    }
    Ok(command)
}

/// All commands. The first word is not the program's name, and there are no options for help or for a version.
pub(crate) fn application<'a>(alloc: Global) -> Result<Command<'a>, AllocError>
    ensures { IfOk result (λ command. app_of command ≡ application_app) }
{
    let program = Command::new(alloc, "ddb_server")
        .no_binary_name(true)
        .subcommand_required(true)
        .disable_help_flag(true)
        .disable_help_subcommand(true)
        .disable_version_flag(true);
    let program = program.subcommand(subcommand(alloc, Mode::Stdio)?)?;
    let program = program.subcommand(subcommand(alloc, Mode::Serve)?)?;
    program.subcommand(subcommand(alloc, Mode::Load)?)
}
