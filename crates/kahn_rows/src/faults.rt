//! Each fault is displayed in the words of its line, which clauses fix.

use kahn_check::CheckFault;
use kahn_fault::{Fault, fault_line};
use kahn_pool::RunFault;
use kahn_report::{ReadFault, TextFault, WorkFault, WriteFault};
use kahn_streams::InputFault;
use kahn_syntax::{Span, SyntaxFault, What};
use std::alloc::Global;
use std::test::Fail;

const SPAN: Span = Span { from: 0, to: 1 };

static WORK: [WorkFault; 40] = [
    WorkFault::Syntax(SyntaxFault::TooLong),
    WorkFault::Syntax(SyntaxFault::BadCharacter(SPAN)),
    WorkFault::Syntax(SyntaxFault::NumberTooLarge(SPAN)),
    WorkFault::Syntax(SyntaxFault::CommentOpen(SPAN)),
    WorkFault::Syntax(SyntaxFault::NameTooLong(SPAN)),
    WorkFault::Syntax(SyntaxFault::Expected(SPAN, What::Other)),
    WorkFault::Syntax(SyntaxFault::Expected(SPAN, What::More)),
    WorkFault::Syntax(SyntaxFault::Expected(SPAN, What::Nothing)),
    WorkFault::Syntax(SyntaxFault::TooDeep(SPAN)),
    WorkFault::Syntax(SyntaxFault::NoMemory),
    WorkFault::Check(CheckFault::DeclaredTwice(SPAN)),
    WorkFault::Check(CheckFault::Unknown(SPAN)),
    WorkFault::Check(CheckFault::WrongKind(SPAN)),
    WorkFault::Check(CheckFault::WrongCount(SPAN)),
    WorkFault::Check(CheckFault::ChannelExpected(SPAN)),
    WorkFault::Check(CheckFault::ValueExpected(SPAN)),
    WorkFault::Check(CheckFault::WrongDirection(SPAN)),
    WorkFault::Check(CheckFault::NoWriter(SPAN)),
    WorkFault::Check(CheckFault::TwoWriters(SPAN)),
    WorkFault::Check(CheckFault::NoReader(SPAN)),
    WorkFault::Check(CheckFault::TwoReaders(SPAN)),
    WorkFault::Check(CheckFault::TooMany(SPAN)),
    WorkFault::Check(CheckFault::NoMemory),
    WorkFault::Text(TextFault::BadLine(3)),
    WorkFault::Text(TextFault::BadValue(12)),
    WorkFault::Text(TextFault::Input(InputFault::UnknownName(1))),
    WorkFault::Text(TextFault::Input(InputFault::NotAnInput(2))),
    WorkFault::Text(TextFault::Input(InputFault::GivenTwice(3))),
    WorkFault::Text(TextFault::Input(InputFault::WrongKind(4))),
    WorkFault::Text(TextFault::Input(InputFault::TooMany(10))),
    WorkFault::Text(TextFault::Input(InputFault::NoMemory)),
    WorkFault::Text(TextFault::TooLong),
    WorkFault::Text(TextFault::NoMemory),
    WorkFault::Run(RunFault::BadConfig),
    WorkFault::Run(RunFault::UnknownWatch),
    WorkFault::Run(RunFault::NoMemory),
    WorkFault::Run(RunFault::NoThread),
    WorkFault::Run(RunFault::Stalled),
    WorkFault::Write(WriteFault::Failed),
    WorkFault::Write(WriteFault::Zero),
];

static UNREAD: [ReadFault; 4] = [
    ReadFault::Failed,
    ReadFault::TooLong,
    ReadFault::NotUtf8,
    ReadFault::NoMemory,
];

// Whether the fault is displayed in the words of its line after its place in the program.
fn tells(alloc: Global, fault: &Fault) -> Result<bool, Fail> {
    let mut written = Vec::new(alloc);
    fault_line(fault, "?", &mut written)?;
    let line = String::from_utf8(written)?;
    let head = if line.starts_with("kahn: 1:1: ") {
        "kahn: 1:1: "
    } else {
        "kahn: "
    };
    let shown = format!(in alloc; "{head}{fault}\n")?;
    Ok(shown.as_str() == line.as_str())
}

#[test]
fn faults_of_the_work(rt: HostRuntime) -> Result<(), Fail> {
    for fault in WORK {
        let fault = Fault::Work(fault);
        assert!(rt; tells(rt.alloc(), &fault)?, "{fault}");
    }
    Ok(())
}

#[test]
fn texts_that_were_not_read(rt: HostRuntime) -> Result<(), Fail> {
    let alloc = rt.alloc();
    let open = Fault::Open(String::from_str(alloc, "a.k")?);
    assert!(rt; tells(alloc, &open)?);
    for fault in UNREAD {
        let path = String::from_str(alloc, "a.k")?;
        let other = String::from_str(alloc, "b")?;
        assert!(rt; tells(alloc, &Fault::Program(Some(path), fault))?);
        assert!(rt; tells(alloc, &Fault::Program(None, fault))?);
        assert!(rt; tells(alloc, &Fault::InputText(other, fault))?);
    }
    Ok(())
}
