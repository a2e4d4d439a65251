//! The script of a demonstration.
#![tactic(auto)]

ghost use Rattle.std.specs.Prelude.{◌≡◌, ◌++◌, ◌≤◌, ℕ, IfOk, OnOk};
ghost use Rattle.script_reader.specs.declared.script.Script.{Script};
ghost use Rattle.script_reader.specs.Scripts.{IsScript};
ghost use Rattle.big_input.specs.DemoScript.{client_name, module_line, loop_line, client_lines, demo_script};

use plain_text::{NoMemory, push_decimal};
use std::alloc::Global;

// The clients' numbers.
const CLIENTS: [u32; 8] = [1, 2, 3, 4, 5, 6, 7, 8];

fn push_name(alloc: Global, out: &mut Vec<u8>, client: u32) -> Result<(), NoMemory>
    ensures { OnOk result (out.new.items ≡ out.old.items ++ client_name client) }
{
    out.push(b'c')?;
    push_decimal(alloc, out, i128::from(client))
}

fn push_module(alloc: Global, out: &mut Vec<u8>, client: u32) -> Result<(), NoMemory>
    ensures { OnOk result (out.new.items ≡ out.old.items ++ module_line client) }
{
    push_name(alloc, out, client)?;
    out.extend_from_slice(
        b" put 1 module part(i) { translate([7*i, 0, 0]) difference() { cube(4); translate([1, 1, 0]) cube([2, 2, ",
    )?;
    push_decimal(alloc, out, i128::from(1 + client % 3))?;
    out.extend_from_slice(b"]); } }\n")?;
    Ok(())
}

fn push_loop(alloc: Global, out: &mut Vec<u8>, client: u32, n: u32) -> Result<(), NoMemory>
    ensures { OnOk result (out.new.items ≡ out.old.items ++ loop_line n client) }
{
    push_name(alloc, out, client)?;
    out.extend_from_slice(b" put 2 for (i = [1 : ")?;
    push_decimal(alloc, out, i128::from(n))?;
    out.extend_from_slice(b"]) part(i);\n")?;
    Ok(())
}

fn push_client(alloc: Global, out: &mut Vec<u8>, client: u32, n: u32) -> Result<(), NoMemory>
    ensures { OnOk result (out.new.items ≡ out.old.items ++ client_lines n client) }
{
    push_module(alloc, out, client)?;
    push_loop(alloc, out, client, n)?;
    push_name(alloc, out, client)?;
    out.extend_from_slice(b" export\n")?;
    Ok(())
}

/// The script of eight clients, each of which makes `n` parts and exports them.
pub fn make_script(alloc: Global, n: u32) -> Result<Vec<u8>, NoMemory>
    requires { (1 ≤ n) × (n ≤ 200) }
    ensures { IfOk result (λ script. script.items ≡ demo_script n) }
{
    let mut script = Vec::new(alloc);
    for client in CLIENTS {
        push_client(alloc, &mut script, client, n)?;
    }
    Ok(script)
}

/// The script of a demonstration is a script: none of its lines has a fault.
pub fn demo_scripts_have_no_fault()
    ensures { (n : ℕ) → n ≤ 200 → (script : Script) × IsScript (demo_script n) script }
{}
