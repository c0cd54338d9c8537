//! What is done to a store and a policy in files.

use anyhow::Result;
use sqlite::{Alter, Connection};
use std::alloc::{AllocError, Global};
use std::path::PathBuf;
use std::{env, fs, process};

/// A path of this process's own, at which there is no file.
pub fn fresh_path(rt: &HostRuntime, name: &[u8], kind: &str) -> Result<String> {
    let id = process::id(rt.process());
    let file = file_name(rt.alloc(), id, str::from_utf8(name)?, kind)?;
    let path = path_of(rt, file.as_str())?;
    remove(rt, path.as_str())?;
    Ok(path)
}

fn file_name(alloc: Global, id: u32, name: &str, kind: &str) -> Result<String, AllocError> {
    format!(in alloc; "zoneoffice-{id}-{name}-{kind}")
}

/// The path of a file in the folder for those that go.
fn path_of(rt: &HostRuntime, file: &str) -> Result<String> {
    let path: PathBuf = env::temp_dir(rt)?.join(rt.alloc(), file)?;
    Ok(String::from_str(rt.alloc(), path.to_str().unwrap_or(""))?)
}

/// Removes a file where there is one.
pub fn remove(rt: &HostRuntime, path: &str) -> Result<()> {
    if fs::exists(rt, path)? {
        fs::remove_file(rt, path)?;
    }
    Ok(())
}

/// Runs a script on a store.
pub fn execute(rt: &HostRuntime, store: &str, script: &[u8]) -> Result<()> {
    let script = str::from_utf8(script)?;
    run_on(Connection::open(rt, store)?, script)
}

fn run_on<S: Alter + Drop>(conn: Connection<S>, script: &str) -> Result<()> {
    let mut conn = conn;
    Ok(conn.execute_batch(script)?)
}

/// Whether a path has a file.
pub fn found(rt: &HostRuntime, path: &str) -> Result<&'static str> {
    Ok(if fs::exists(rt, path)? {
        "a file"
    } else {
        "no file"
    })
}
