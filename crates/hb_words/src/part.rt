//! The commands and their parts, by which a fault is told.

ghost use Rattle.std.specs.Prelude.{◌≡◌};
ghost use Rattle.hb_words.specs.Grammar.{command_text};
ghost use Rattle.hb_words.specs.Part.{command_named, id_text, dashes, is_run_option, has, is_flag, any_option, other_option, any_flag};
ghost use Rattle.hb_words.specs.Part.{part_of, places_of};

/// The commands.
#[derive(Clone, Copy)]
pub enum CommandName {
    Check,
    Route,
    Show,
    Make,
    /// Runs the proxy over a script.
    Replay,
    /// Runs it over real sockets.
    Serve,
}

/// The parts of the commands: options, flags, and words in places.
#[derive(Clone, Copy)]
pub enum PartName {
    Node,
    Network,
    Explain,
    Source,
    Identity,
    Target,
    Fields,
    Id,
    Discovery,
    Inbound,
    Outbound,
    Plain,
    HbonePort,
    Tunnels,
    Turns,
    Ticks,
    /// Where the state of the run is told.
    Status,
    StopOnInput,
    /// No line of an answer or an end is written.
    Quiet,
    /// No other is.
    NotesOnly,
    Trace,
    Brief,
    /// The number of tunnels of `make`.
    Count,
    Run,
}

static CHECK_PLACES: [PartName; 3] = [PartName::Source, PartName::Identity, PartName::Target];

static ROUTE_PLACES: [PartName; 2] = [PartName::Source, PartName::Target];

static MAKE_PLACES: [PartName; 1] = [PartName::Count];

/// The command that a word names.
pub(crate) fn command_named(word: &str) -> Option<CommandName>
    ensures { result ≡ command_named word.now }
{
    if word == "check" {
        return Some(CommandName::Check);
    }
    if word == "route" {
        return Some(CommandName::Route);
    }
    if word == "show" {
        return Some(CommandName::Show);
    }
    if word == "make" {
        return Some(CommandName::Make);
    }
    if word == "replay" {
        return Some(CommandName::Replay);
    }
    if word == "serve" {
        return Some(CommandName::Serve);
    }
    None
}

/// An option of the commands that run the proxy, of which some are those of `check` and `route`.
fn any_option(name: &str) -> Option<PartName>
    ensures { result ≡ any_option name.now }
{
    if name == "--node" {
        return Some(PartName::Node);
    }
    if name == "--network" {
        return Some(PartName::Network);
    }
    if name == "--id" {
        return Some(PartName::Id);
    }
    if name == "--discovery" {
        return Some(PartName::Discovery);
    }
    if name == "--inbound" {
        return Some(PartName::Inbound);
    }
    if name == "--outbound" {
        return Some(PartName::Outbound);
    }
    if name == "--plain" {
        return Some(PartName::Plain);
    }
    other_option(name)
}

/// Any other option, or a flag.
fn other_option(name: &str) -> Option<PartName>
    ensures { result ≡ other_option name.now }
{
    if name == "--hbone-port" {
        return Some(PartName::HbonePort);
    }
    if name == "--tunnels" {
        return Some(PartName::Tunnels);
    }
    if name == "--turns" {
        return Some(PartName::Turns);
    }
    if name == "--ticks" {
        return Some(PartName::Ticks);
    }
    if name == "--status" {
        return Some(PartName::Status);
    }
    any_flag(name)
}

fn any_flag(name: &str) -> Option<PartName>
    ensures { result ≡ any_flag name.now }
{
    if name == "--explain" {
        return Some(PartName::Explain);
    }
    if name == "--fields" {
        return Some(PartName::Fields);
    }
    if name == "--stop-on-input" {
        return Some(PartName::StopOnInput);
    }
    if name == "--quiet" {
        return Some(PartName::Quiet);
    }
    if name == "--notes-only" {
        return Some(PartName::NotesOnly);
    }
    if name == "--trace" {
        return Some(PartName::Trace);
    }
    if name == "--brief" {
        return Some(PartName::Brief);
    }
    if name == "--run" {
        return Some(PartName::Run);
    }
    None
}

impl PartName {
    /// Its name in the command's declaration.
    pub(crate) fn id(self) -> &'static str
        ensures { result.now ≡ id_text self }
    {
        match self {
            PartName::Node => "node",
            PartName::Network => "network",
            PartName::Explain => "explain",
            PartName::Source => "SOURCE",
            PartName::Identity => "IDENTITY",
            PartName::Target => "TARGET",
            PartName::Fields => "fields",
            PartName::Id => "id",
            PartName::Discovery => "discovery",
            PartName::Inbound => "inbound",
            PartName::Outbound => "outbound",
            PartName::Plain => "plain",
            PartName::HbonePort => "hbone-port",
            PartName::Tunnels => "tunnels",
            PartName::Turns => "turns",
            PartName::Ticks => "ticks",
            PartName::Status => "status",
            PartName::StopOnInput => "stop-on-input",
            PartName::Quiet => "quiet",
            PartName::NotesOnly => "notes-only",
            PartName::Trace => "trace",
            PartName::Brief => "brief",
            PartName::Count => "N",
            PartName::Run => "run",
        }
    }

    /// What stands before its name where it is told.
    pub(crate) fn dashes(self) -> &'static str
        ensures { result.now ≡ dashes self }
    {
        match self {
            PartName::Source | PartName::Identity | PartName::Target | PartName::Count => "",
            _ => "--",
        }
    }

    /// An option of both commands that run the proxy.
    fn is_run_option(self) -> bool
        ensures { result ≡ is_run_option self }
    {
        match self {
            PartName::Node
            | PartName::Network
            | PartName::Id
            | PartName::Discovery
            | PartName::Inbound
            | PartName::Outbound
            | PartName::Plain
            | PartName::HbonePort
            | PartName::Tunnels
            | PartName::Turns => true,
            _ => false,
        }
    }

    pub(crate) fn is_flag(self) -> bool
        ensures { result ≡ is_flag self }
    {
        matches!(
            self,
            PartName::Explain
                | PartName::Fields
                | PartName::StopOnInput
                | PartName::Quiet
                | PartName::NotesOnly
                | PartName::Trace
                | PartName::Brief
                | PartName::Run
        )
    }
}

impl CommandName {
    /// The word that names it.
    pub(crate) fn name(self) -> &'static str
        ensures { result.now ≡ command_text self }
    {
        match self {
            CommandName::Check => "check",
            CommandName::Route => "route",
            CommandName::Show => "show",
            CommandName::Make => "make",
            CommandName::Replay => "replay",
            CommandName::Serve => "serve",
        }
    }

    /// Whether it has this option or flag.
    fn has(self, part: PartName) -> bool
        ensures { result ≡ has self part }
    {
        match self {
            CommandName::Check => {
                matches!(part, PartName::Node | PartName::Network | PartName::Explain)
            }
            CommandName::Route => {
                matches!(
                    part,
                    PartName::Node | PartName::Network | PartName::HbonePort
                )
            }
            CommandName::Show => matches!(part, PartName::Fields),
            CommandName::Make => matches!(part, PartName::Run),
            CommandName::Replay => {
                part.is_run_option() || matches!(part, PartName::Trace | PartName::Brief)
            }
            CommandName::Serve => {
                part.is_run_option()
                    || matches!(
                        part,
                        PartName::Ticks
                            | PartName::Status
                            | PartName::StopOnInput
                            | PartName::Quiet
                            | PartName::NotesOnly
                    )
            }
        }
    }

    /// Its option or flag of this name.
    pub(crate) fn part(self, name: &str) -> Option<PartName>
        ensures { result ≡ part_of self name.now }
    {
        match any_option(name) {
            Some(part) if self.has(part) => Some(part),
            _ => None,
        }
    }

    /// Its words in places, in their order.
    pub(crate) fn places(self) -> &'static [PartName]
        ensures { result.now ≡ places_of self }
    {
        match self {
            CommandName::Check => CHECK_PLACES.as_slice(),
            CommandName::Route => ROUTE_PLACES.as_slice(),
            CommandName::Make => MAKE_PLACES.as_slice(),
            _ => &[],
        }
    }
}
