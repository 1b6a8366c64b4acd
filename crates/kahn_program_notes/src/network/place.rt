//! Where a fault stands: among the lexemes of a text, and in what they spell.

ghost use Rattle.std.specs.Prelude.{◌≡◌};
ghost use Rattle.kahn_program_notes.specs.Hints.{word_at};

use kahn_diagnostic::part_of;
use kahn_streams::{
    Argument, CheckFault, Declaration, Direction, Instance, Kind, Name, Parameter, Process,
    Program, Role, Span, Taking,
};
use kahn_syntax::{Class, Keyword, Lexeme, Sign};
use std::alloc::{AllocError, Global};
use std::hash::RandomState;

/// Of so many instances the arguments are looked at: as many as a program may have.
const MOST_INSTANCES: usize = 256;

/// What a name stands for.
#[derive(Clone, Copy, PartialEq, Eq)]
pub(crate) enum NameKind {
    /// Any of these.
    Any,
    Value,
    Channel,
    /// A channel whose values come from outside.
    Input,
    /// A parameter that takes a channel to be read.
    Source,
    /// A parameter that takes a channel to be written.
    Target,
    Process,
}

/// A process, and its part of the text: from its name to the declaration behind it, or to the first instance.
#[derive(Clone, Copy)]
pub(crate) struct Body<'p> {
    pub(crate) process: &'p Process,
    pub(crate) from: usize,
    pub(crate) to: usize,
}

/// An argument that an instance hands over.
#[derive(Clone, Copy)]
pub(crate) struct Handed<'p> {
    pub(crate) span: Span,
    /// The letters of a channel; none of a value.
    channel: &'p [u8],
    /// What takes it, if the process is declared and has so many parameters.
    parameter: Option<&'p Parameter>,
    /// The process of the instance.
    process: &'p Name,
}

/// The place of a fault.
#[derive(Clone, Copy)]
pub(crate) struct NetworkPlace<'p> {
    pub(crate) alloc: Global,
    pub(crate) seed: RandomState,
    pub(crate) text: &'p str,
    pub(crate) lexemes: &'p [Lexeme],
    pub(crate) program: &'p Program,
    /// Its processes, the last first.
    pub(crate) bodies: &'p [Body<'p>],
    /// What its instances hand over.
    pub(crate) handed: &'p [Handed<'p>],
    /// All faults of the text.
    pub(crate) faults: &'p [CheckFault],
    /// The part that is at fault.
    pub(crate) at: Span,
    /// How many lexemes begin before it.
    pub(crate) number: usize,
    /// The process in whose text it stands, behind its name.
    pub(crate) body: Option<Body<'p>>,
}

/// Returns what a name must be to fit a parameter, and of which kind.
pub(crate) fn taken_by(parameter: &Parameter) -> (NameKind, Kind) {
    match parameter.taking {
        Taking::Channel(Direction::In, kind) => (NameKind::Source, kind),
        Taking::Channel(Direction::Out, kind) => (NameKind::Target, kind),
        Taking::Value(kind) => (NameKind::Value, kind),
    }
}

/// The side of a channel that a fault is about, if it is about one.
pub(crate) fn side_of(fault: CheckFault) -> NameKind {
    match fault {
        CheckFault::NoWriter(_) | CheckFault::TwoWriters(_) => NameKind::Target,
        CheckFault::NoReader(_) | CheckFault::TwoReaders(_) => NameKind::Source,
        _ => NameKind::Channel,
    }
}

/// The letters at a place of a text; none where it isn't within the text.
pub(crate) fn word_at(text: &str, at: Span) -> &[u8]
    ensures { result.now ≡ word_at text.now at }
{
    match text.as_bytes().get(at.from..at.to) {
        Some(word) => word,
        None => &[],
    }
}

pub(crate) fn is_called(word: &[u8], name: &Name) -> bool {
    word == name.text.as_bytes()
}

/// Those of a program, the last first.
pub(crate) fn bodies_in<'p>(
    alloc: Global,
    program: &'p Program,
) -> Result<Vec<Body<'p>>, AllocError> {
    let mut bodies = Vec::new(alloc);
    let first = program.instances.first();
    let mut to = first.map_or(usize::MAX, |instance| instance.process.span.from);
    for declaration in program.declarations.iter().rev() {
        match declaration {
            Declaration::Process(process) => {
                let from = process.name.span.from;
                bodies.push(Body { process, from, to })?;
                to = from;
            }
            Declaration::Channels(_, _, names) => {
                to = names.first().map_or(to, |name| name.span.from);
            }
        }
    }
    Ok(bodies)
}

/// Returns the first process called `word`.
pub(crate) fn body_called<'p>(bodies: &[Body<'p>], word: &[u8]) -> Option<Body<'p>> {
    let mut all = bodies.iter().rev();
    all.find(|body| is_called(word, &body.process.name))
        .copied()
}

/// The last of some instances that begins before a byte, or at it.
pub(crate) fn instance_at(instances: &[Instance], from: usize) -> Option<&Instance> {
    let count = instances.partition_point(|instance| instance.process.span.from <= from);
    instances.get(count.checked_sub(1)?)
}

/// All arguments of the instances that a program may have.
pub(crate) fn handed_in<'p>(
    alloc: Global,
    program: &'p Program,
    bodies: &[Body<'p>],
) -> Result<Vec<Handed<'p>>, AllocError> {
    let mut all = Vec::new(alloc);
    for instance in program.instances.iter().take(MOST_INSTANCES) {
        let process = &instance.process;
        let called = body_called(bodies, process.text.as_bytes());
        for (number, argument) in instance.arguments.iter().enumerate() {
            let (span, channel) = match argument {
                Argument::Channel(name) => (name.span, name.text.as_bytes()),
                Argument::Number(_, span) | Argument::Logical(_, span) => (*span, "".as_bytes()),
            };
            let parameter = called.and_then(|body| body.process.parameters.get(number));
            all.push(Handed {
                span,
                channel,
                parameter,
                process,
            })?;
        }
    }
    Ok(all)
}

/// That at the beginning of a text.
pub(crate) fn beginning<'p>(
    alloc: Global,
    seed: RandomState,
    text: &'p str,
    lexemes: &'p [Lexeme],
    program: &'p Program,
    bodies: &'p [Body<'p>],
    handed: &'p [Handed<'p>],
    faults: &'p [CheckFault],
) -> NetworkPlace<'p> {
    NetworkPlace {
        alloc,
        seed,
        text,
        lexemes,
        program,
        bodies,
        handed,
        faults,
        at: Span { from: 0, to: 0 },
        number: 0,
        body: None,
    }
}

impl<'p> NetworkPlace<'p> {
    /// The same of another part.
    pub(crate) fn moved_to(self, at: Span) -> NetworkPlace<'p> {
        let (lexemes, mut bodies) = (self.lexemes, self.bodies.iter());
        let body = bodies.find(|body| body.from < at.from && at.from < body.to);
        NetworkPlace {
            at,
            number: lexemes.partition_point(|lexeme| lexeme.span.from < at.from),
            body: body.copied(),
            ..self
        }
    }

    pub(crate) fn word(&self) -> &'p [u8] {
        word_at(self.text, self.at)
    }

    pub(crate) fn part(&self, part: Span) -> &'p str {
        part_of(self.text, part)
    }

    /// What stands so many lexemes behind it.
    pub(crate) fn class(&self, behind: isize) -> Option<Class> {
        let number = self.number.checked_add_signed(behind)?;
        Some(self.lexemes.get(number)?.what)
    }

    /// The first process of its letters.
    pub(crate) fn called(&self) -> Option<&'p Process> {
        Some(body_called(self.bodies, self.word())?.process)
    }

    /// The kind of the first channel of these letters, and what the outside has to do with it.
    pub(crate) fn channel(&self, word: &[u8]) -> Option<(Kind, Role)> {
        let mut all = self.program.declarations.iter();
        all.find_map(|declaration| match declaration {
            Declaration::Channels(kind, role, names)
                if names.iter().any(|name| is_called(word, name)) => Some((*kind, *role)),
            _ => None,
        })
    }

    /// What the instance in whose text it stands hands over.
    pub(crate) fn handed_there(&self) -> &'p [Handed<'p>] {
        let Some(instance) = instance_at(&self.program.instances, self.at.from) else {
            return &[];
        };
        let begin = instance.process.span.from;
        let first = self.handed.partition_point(|one| one.span.from < begin);
        let rest = self.handed.get(first..).unwrap_or(&[]);
        rest.get(..instance.arguments.len()).unwrap_or(&[])
    }

    /// Returns where the channel `word` is first passed to a parameter of that direction.
    pub(crate) fn passed(&self, side: NameKind, word: &[u8]) -> Option<Span> {
        let mut all = self.handed.iter();
        let is_for = |parameter| taken_by(parameter).0 == side;
        let one = all.find(|one| one.channel == word && one.parameter.is_some_and(is_for))?;
        Some(one.span)
    }

    /// Where the channel at the place is handed over first, if not there.
    pub(crate) fn passed_before(&self, side: NameKind) -> Option<Span> {
        let first = self.passed(side, self.word())?;
        Some(first).filter(|first| first.from != self.at.from)
    }

    /// The parameter that takes what stands at the place.
    pub(crate) fn parameter(&self) -> Option<&'p Parameter> {
        let mut all = self.handed.iter();
        all.find(|one| one.span.from == self.at.from)?.parameter
    }

    /// The parameter of its process that has its letters.
    pub(crate) fn own_parameter(&self) -> Option<&'p Parameter> {
        let mut all = self.body?.process.parameters.iter();
        all.find(|parameter| is_called(self.word(), &parameter.name))
    }

    /// The first parameter of its process for which an instance hands over the channel of its letters.
    pub(crate) fn parameter_for(&self) -> Option<&'p Name> {
        let (mut all, name) = (self.handed.iter(), self.name().as_bytes());
        let one = all.find(|one| is_called(name, one.process) && one.channel == self.word())?;
        Some(&one.parameter?.name)
    }

    /// Whether an instance of its process hands over more than that has parameters.
    pub(crate) fn is_short(&self) -> bool {
        let (mut all, name) = (self.handed.iter(), self.name().as_bytes());
        all.any(|one| one.parameter.is_none() && is_called(name, one.process))
    }

    /// Returns the first process without an instance that has a parameter of that direction, and of the channel's kind.
    pub(crate) fn taker(&self, side: NameKind) -> Option<Span> {
        let wanted = (side, self.channel(self.word())?.0);
        for body in self.bodies.iter().rev() {
            let (name, mut all) = (&body.process.name, body.process.parameters.iter());
            let mut made = self.program.instances.iter();
            if all.any(|parameter| taken_by(parameter) == wanted)
                && !made.any(|instance| is_called(name.text.as_bytes(), &instance.process))
            {
                return Some(name.span);
            }
        }
        None
    }

    /// The name of the process in whose text it stands, if it stands in one.
    pub(crate) fn name(&self) -> &'p str {
        self.body.map_or("", |body| body.process.name.text.as_str())
    }

    /// The lexemes of the part that sees the names at the place: a process, or the whole text.
    pub(crate) fn seen(&self) -> &'p [Lexeme] {
        let lexemes = self.lexemes;
        let Some(body) = self.body else {
            return lexemes;
        };
        let from = lexemes.partition_point(|lexeme| lexeme.span.from < body.from);
        let to = lexemes.partition_point(|lexeme| lexeme.span.from < body.to);
        lexemes.get(from..to).unwrap_or(&[])
    }

    /// Returns which sort of name fits at this place.
    pub(crate) fn asked(&self) -> NameKind {
        match (self.body, self.class(-2), self.class(-1), self.class(1)) {
            (None, _, _, Some(Class::Sign(Sign::Open))) => NameKind::Process,
            (None, _, _, _) => NameKind::Channel,
            (_, _, Some(Class::Word(Keyword::On)), _) => NameKind::Target,
            (_, Some(Class::Word(Keyword::Wait)), Some(Class::Sign(Sign::Open)), _) =>
                NameKind::Source,
            _ => NameKind::Value,
        }
    }

    /// Whether `name` is still unused here: it occurs only in its declaration; or, as an argument, it is a channel that fits and
    /// lacks this side.
    pub(crate) fn is_free(&self, name: &Name) -> bool {
        let word = name.text.as_bytes();
        let Some((side, kind)) = self.parameter().map(taken_by) else {
            let mut all = self.seen().iter();
            return !all.any(|lexeme| {
                lexeme.span.from != name.span.from && word_at(self.text, lexeme.span) == word
            });
        };
        match (self.channel(word), side) {
            (Some((_, Role::Output)), NameKind::Source) => false,
            (Some((_, Role::Input)), NameKind::Target) => false,
            (Some((found, _)), _) => found == kind && self.passed(side, word).is_none(),
            (None, _) => false,
        }
    }
}

/// The names of a process, its parameters first, or those of the program where there is none: those that stand for what is asked for.
pub(crate) fn names_seen<'p>(
    alloc: Global,
    program: &'p Program,
    body: Option<Body<'p>>,
    asked: NameKind,
) -> Result<Vec<&'p Name>, AllocError> {
    let mut names = Vec::new(alloc);
    let is_asked = |kind: NameKind| asked == NameKind::Any || asked == kind;
    let Some(body) = body else {
        for declaration in &program.declarations {
            match declaration {
                Declaration::Process(process) if is_asked(NameKind::Process) => {
                    names.push(&process.name)?;
                }
                Declaration::Channels(_, role, channels)
                    if is_asked(NameKind::Channel)
                        || is_asked(NameKind::Input) && *role == Role::Input => {
                    for channel in channels {
                        names.push(channel)?;
                    }
                }
                _ => {}
            }
        }
        return Ok(names);
    };
    for parameter in &body.process.parameters {
        if is_asked(taken_by(parameter).0) {
            names.push(&parameter.name)?;
        }
    }
    for variable in &body.process.variables {
        if is_asked(NameKind::Value) {
            names.push(&variable.name)?;
        }
    }
    Ok(names)
}
