// The commands of a client, one to a line.
pub enum Command<'a> {
    // NUMBER SEQUENCE
    Client(&'a str),
    // a payload's digits
    Open(&'a str),
    // a record's digits
    Hear(&'a str),
    Close,
    WriteOff,
}

// The line is no command.
pub struct NoCommand;

impl<'a> TryFrom<&'a str> for Command<'a> {
    type Error = NoCommand;

    fn try_from(line: &'a str) -> Result<Command<'a>, NoCommand> {
        match line.split_once(' ') {
            Some(("client", text)) => Ok(Command::Client(text)),
            Some(("open", text)) => Ok(Command::Open(text)),
            Some(("hear", text)) => Ok(Command::Hear(text)),
            None if line == "close" => Ok(Command::Close),
            None if line == "write-off" => Ok(Command::WriteOff),
            _ => Err(NoCommand),
        }
    }
}
