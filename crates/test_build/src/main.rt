//! Builds policies from groups. Standard input has cases, each after a line `%` and its title: a file of groups, and after a line `?`
//! the beginning of the ids that are asked for.
//!
//! Below each title stand how many rules the office reads of what was built, and those whose id begins so; or why it is refused.
#![tactic(auto)]

use dns_data::RecordType;
use grant_policy::{Action, Callers, Policy, Rule, read_policy};
use policy_build::{BuildFault, build, read_source};
use std::io::{self, Read};

fn callers_text(callers: &Callers) -> &str {
    match callers {
        Callers::Every => "*",
        Callers::One(identifier) => identifier.as_str(),
    }
}

fn print_types(rt: &HostRuntime, rule: &Rule) -> io::Result<()> {
    for one in RecordType::ALL.iter() {
        if rule.types.include(*one) {
            print!(rt; " {}", one.text())?;
        }
    }
    Ok(())
}

fn print_actions(rt: &HostRuntime, rule: &Rule) -> io::Result<()> {
    for one in Action::ALL.iter() {
        if rule.actions.include(*one) {
            print!(rt; " {}", one.text())?;
        }
    }
    Ok(())
}

fn print_rule(rt: &HostRuntime, rule: &Rule) -> io::Result<()> {
    print!(rt;
        "{} {} {} {} {}",
        rule.id.as_str(),
        rule.effect.text(),
        callers_text(&rule.callers),
        rule.scope.text(),
        rule.at
    )?;
    print_types(rt, rule)?;
    print_actions(rt, rule)?;
    println!(rt; "")
}

fn print_policy(rt: &HostRuntime, policy: &Policy, asked: &str) -> io::Result<()> {
    println!(rt; "{} rules", policy.rules().len())?;
    for rule in policy.rules() {
        if rule.id.as_str().starts_with(asked) {
            print_rule(rt, rule)?;
        }
    }
    Ok(())
}

/// The policy that a file makes, in the office's TOML.
fn built(rt: &HostRuntime, file: &str) -> Result<String, BuildFault> {
    let source = read_source(rt.alloc(), file.as_bytes())?;
    let built = build(rt.alloc(), &source)?;
    Ok(built.text(rt.alloc())?)
}

fn print_built(rt: &HostRuntime, file: &str, asked: &str) -> io::Result<()> {
    match built(rt, file) {
        Ok(text) => match read_policy(rt.alloc(), text.as_bytes()) {
            Ok(policy) => print_policy(rt, &policy, asked),
            Err(fault) => println!(rt; "no policy: {fault}"),
        },
        Err(fault) => println!(rt; "refused {}: {fault}", fault.number()),
    }
}

fn print_case(rt: &HostRuntime, case: &str) -> io::Result<()> {
    let Some((title, rest)) = case.split_once('\n') else {
        return Ok(());
    };
    println!(rt; "%{title}")?;
    match rest.split_once("?\n") {
        Some((file, asked)) => print_built(rt, file, asked.trim_end()),
        None => print_built(rt, rest, "none"),
    }
}

fn main(rt: HostRuntime) -> io::Result<()> {
    let mut text = String::new(rt.alloc());
    rt.stdin().read_to_string(&mut text)?;
    for case in text.split('%') {
        print_case(&rt, case)?;
    }
    Ok(())
}
