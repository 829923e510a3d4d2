//! The register's program: it hands `registry_main::run` the words behind its name, the policy's file, the standard streams, the
//! clock, and the doors over sockets, and ends with what that answers.
#![tactic(auto)]

mod policy_file;

use command_words::Command;
use door_face::{SocketGate, ThreadSpawner};
use link_face::{InSource, OutSink, SystemDay};
use policy_file::PolicyFile;
use registry_main::Exit;
use std::env::VarError;
use std::io::IsTerminal;
use std::process::ExitCode;
use std::sync::Wait;
use std::thread::Threads;
use std::{env, io};

/// The words behind the program's name, or how the program ends where they can't be had.
fn words_of(rt: &HostRuntime) -> Result<Vec<String>, Exit> {
    match env::args(rt) {
        Ok(args) => args.skip(1).collect(rt.alloc()).map_err(|_| Exit::NoMemory),
        Err(error) if error.kind() == io::ErrorKind::OutOfMemory => Err(Exit::NoMemory),
        // A word that is no text is no word of a command.
        Err(_) => Err(Exit::Usage),
    }
}

/// The gate over sockets, at the address that the environment names, or else at this machine's own.
fn gate_of(rt: &HostRuntime) -> SocketGate<&HostRuntime> {
    match env::var(rt, "REGISTER_LISTEN") {
        Ok(address) => SocketGate::listening_on(rt, &address),
        Err(VarError::NotPresent) => SocketGate::new(rt),
        // What is no text is no address.
        Err(_) => SocketGate::listening_on(rt, ""),
    }
}

/// Tells a person at a terminal which doors are about to be opened, since a service writes nothing until it ends.
fn tell_doors(rt: &HostRuntime, words: &[String]) {
    if let Ok(Some(Command::Serve { http, line, .. })) = Command::read(rt.alloc(), words) {
        if rt.stderr().is_terminal() {
            let _ = eprintln!(rt;
                "about to serve HTTP at port {http} and lines at port {line}, until Ctrl-C; nothing is kept"
            );
        }
    }
}

/// Runs the program over what it is given from outside, with threads by a handle of their own.
fn run_program<R: AllocGlobal + Threads + Wait + Sync>(rt: &HostRuntime, threads: &R) -> Exit {
    let words = match words_of(rt) {
        Ok(words) => words,
        Err(exit) => return exit,
    };
    tell_doors(rt, &words);
    let mut policy = InSource::new(PolicyFile::open(rt, "policy.toml"));
    let mut script = InSource::new(rt.stdin());
    let mut out = OutSink::new(rt.stdout());
    let clock = SystemDay::new(rt);
    let mut gate = gate_of(rt);
    let mut spawner = ThreadSpawner::new();
    registry_main::run(
        threads,
        &words,
        &mut policy,
        &mut script,
        &mut out,
        &clock,
        &mut gate,
        &mut spawner,
    )
}

fn main(rt: HostRuntime) -> ExitCode {
    let exit = run_program(&rt, &rt);
    if exit != Exit::Done {
        let _ = eprintln!(rt; "{exit}");
    }
    ExitCode::from(exit.status())
}
