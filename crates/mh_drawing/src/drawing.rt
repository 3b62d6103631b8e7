ghost use Rattle.std.specs.Prelude.{◌≡◌, ◌++◌, IfOk, OnOk, flat_map};
ghost use Rattle.mh_drawing.specs.Drawing.{drawing, form_text, head, legend, site_text, target_of, targets_of};

use crate::arrows::push_site_edges;
use crate::boxes::push_site_line;
use crate::label::{number_of, push};
use crate::node::push_form;
use crate::shown_form::ShownForm;
use crate::site::Site;
use mh_attempt::Linked;
use mh_base::NoMemory;
use mh_values::Classes;
use std::alloc::Global;

/// The first lines: how nodes look.
const HEAD: &[u8] = b"digraph forms {\n  rankdir=LR;\n  node [fontname=monospace, fontsize=10];\n";

/// What the looks mean.
const LEGEND: &[u8] =
    b"  subgraph cluster_legend {\n    label=\"legend\";\n    l1 [label=\"a form\\lthe key that made it\\lits names\\l\"];\n    l2 [label=\"a form that two\\lor more sites share\\l\", style=filled, fillcolor=gold];\n    l3 [shape=box, label=\"a call site\\l\"];\n    l4 [label=\"form of a\\lside part\\l\"];\n    l1 -> l2 [label=\"one more key\"];\n    l3 -> l2 [label=\"target\"];\n    l3 -> l4 [style=dashed, label=\"side part\"];\n  }\n";

#[tactic(auto, unfolding(crate::specs::Drawing::head))]
fn push_head(text: &mut Vec<u8>) -> Result<(), NoMemory>
    ensures { OnOk result (text.new.items ≡ text.old.items ++ head) }
{
    push(text, HEAD)
}

#[tactic(auto, unfolding(crate::specs::Drawing::legend))]
fn push_legend(text: &mut Vec<u8>) -> Result<(), NoMemory>
    ensures { OnOk result (text.new.items ≡ text.old.items ++ legend) }
{
    push(text, LEGEND)
}

fn push_target(targets: &mut Vec<u32>, linked: &Linked<'_>) -> Result<(), NoMemory>
    ensures { OnOk result (targets.new.items ≡ targets.old.items ++ target_of linked.now) }
{
    if let Linked::Target(target) = linked {
        targets.push(number_of(target.form()))?;
    }
    Ok(())
}

// The numbers of the forms of all targets.
fn targets_of(alloc: Global, sites: &[Site<'_, '_>]) -> Result<Vec<u32>, NoMemory>
    ensures { IfOk result (λ targets. targets.items ≡ targets_of sites.now) }
{
    let mut targets = Vec::new(alloc);
    for site in sites {
        push_target(&mut targets, site.linked)?;
    }
    Ok(targets)
}

fn push_forms(
    alloc: Global,
    text: &mut Vec<u8>,
    forms: &[ShownForm<'_>],
    targets: &[u32],
) -> Result<(), NoMemory>
    ensures { OnOk result (text.new.items
        ≡ text.old.items ++ flat_map (form_text forms.now targets.now) forms.now) }
{
    for form in forms {
        push_form(alloc, text, forms, targets, form)?;
    }
    Ok(())
}

fn push_site(
    alloc: Global,
    text: &mut Vec<u8>,
    forms: &[ShownForm<'_>],
    site: &Site<'_, '_>,
    classes: &Classes,
) -> Result<(), NoMemory>
    ensures { OnOk result (text.new.items
        ≡ text.old.items ++ site_text classes.now forms.now site.now) }
{
    push_site_line(alloc, text, site, classes)?;
    push_site_edges(alloc, text, forms, site.number, site.linked)
}

fn push_sites(
    alloc: Global,
    text: &mut Vec<u8>,
    forms: &[ShownForm<'_>],
    sites: &[Site<'_, '_>],
    classes: &Classes,
) -> Result<(), NoMemory>
    ensures { OnOk result (text.new.items
        ≡ text.old.items ++ flat_map (site_text classes.now forms.now) sites.now) }
{
    for site in sites {
        push_site(alloc, text, forms, site, classes)?;
    }
    Ok(())
}

/// The drawing of forms and call sites, in the language DOT of Graphviz.
pub fn draw_forms(
    alloc: Global,
    forms: &[ShownForm<'_>],
    sites: &[Site<'_, '_>],
    classes: &Classes,
) -> Result<Vec<u8>, NoMemory>
    ensures { IfOk result (λ text. text.items ≡ drawing classes.now forms.now sites.now) }
{
    let targets = targets_of(alloc, sites)?;
    let mut text = Vec::new(alloc);
    push_head(&mut text)?;
    push_legend(&mut text)?;
    push_forms(alloc, &mut text, forms, &targets)?;
    push_sites(alloc, &mut text, forms, sites, classes)?;
    push(&mut text, b"}\n")?;
    Ok(text)
}
