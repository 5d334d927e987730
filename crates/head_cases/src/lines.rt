// Bodies, static assertions, declarations without a declarator, and roles.
use crate::notation::{plain, token};
use crate::showing::{how_name, role_name, shown_begun, shown_outcome};
use crate::words::{kind_named, name_token, needed};
use head_rules::{
    BareParts, Declaring, Places, Specified, assertion, bare_declaration, bare_member, begin_body,
    how_of, place_of, refused_how, role_of,
};
use scope_tables::{Anchor, Entity, EntityKind, Life, Linkage, ScopeKind};
use shared_text::Name;
use std::alloc::{AllocError, Global};
use type_data::{CType, Node, TagId, TagInfo, TagKind, Tags};

// The tag of this letter, as its scope has it.
fn tag_entity(alloc: Global, kind: TagKind, letter: u32) -> Result<Entity, AllocError> {
    let named = name_token(alloc, "T", letter)?;
    let ty = CType::of(Node::Tagged(token(alloc, letter)?));
    Ok(Entity {
        name: named.name,
        kind: EntityKind::Tag(
            named.id,
            TagInfo {
                kind,
                name: None,
                members: None,
                layout: None,
            },
        ),
        ty,
        qual: plain(),
        linkage: Linkage::None,
        life: Life::Without,
        value: None,
        anchor: Anchor::Local(named.tok),
    })
}

// The tags whose bodies stand round.
fn round_of(alloc: Global, letter: u32, is_round: bool) -> Result<Vec<TagId>, AllocError> {
    if !is_round {
        return Ok(Vec::new(alloc));
    }
    let id = token(alloc, letter)?;
    let round = vec![in alloc; id]?;
    Ok(round)
}

fn begun(
    alloc: Global,
    tags: &Tags,
    kind: TagKind,
    before: Option<&Entity>,
    round: &[TagId],
) -> Result<String, AllocError> {
    let name = name_token(alloc, "T", 5)?;
    match begin_body(alloc, kind, &name, before, tags, round) {
        Ok(begun) => shown_begun(alloc, &begun),
        Err(e) => Err(e),
    }
}

fn begun_again(
    alloc: Global,
    tags: &Tags,
    kind: TagKind,
    entity: &Entity,
    letter: u32,
    is_round: bool,
) -> Result<String, AllocError> {
    let round = round_of(alloc, letter, is_round)?;
    begun(alloc, tags, kind, Some(entity), round.as_slice())
}

/// A body: its kind, the kind and the letter of what its scope has (`-` for nothing), and `round` where a body of that stands
/// round it.
pub fn body(alloc: Global, tags: &Tags, line: &str) -> Result<String, AllocError> {
    let mut words = line.split_ascii_whitespace();
    let kind = kind_named(words.next().unwrap_or("struct"));
    let has = kind_named(words.next().unwrap_or("struct"));
    let word = words.next().unwrap_or("-");
    let is_round = words.next().is_some();
    let letter = match word.as_bytes().first() {
        Some(letter) => u32::from(*letter),
        None => 45,
    };
    if word == "-" {
        return begun(alloc, tags, kind, None, &[]);
    }
    let entity = tag_entity(alloc, has, letter)?;
    let shown = begun_again(alloc, tags, kind, &entity, letter, is_round);
    drop(entity);
    shown
}

/// A static assertion: its value, and the pieces of its string.
pub fn assert(alloc: Global, line: &str) -> Result<String, AllocError> {
    let mut words = line.split_ascii_whitespace();
    let value = needed(words.next().unwrap_or("x"));
    let mut pieces = Vec::new(alloc);
    for word in words {
        pieces.push(Name::from_str(alloc, word)?)?;
    }
    let fault = assertion(alloc, 3, pieces.as_slice(), value)?;
    shown_outcome(alloc, &fault)
}

// Whether a line has a word.
fn has(line: &str, word: &str) -> bool {
    line.split_ascii_whitespace().any(|w| w == word)
}

fn specified(line: &str) -> Specified {
    let named = !has(line, "nameless");
    if has(line, "struct") {
        return Specified::Tag(TagKind::Struct, named);
    }
    if has(line, "union") {
        return Specified::Tag(TagKind::Union, named);
    }
    if has(line, "enum") {
        return Specified::Tag(TagKind::Enum, named);
    }
    Specified::Other
}

fn at_if(line: &str, word: &str, at: u32) -> Option<u32> {
    if has(line, word) { Some(at) } else { None }
}

/// A declaration without a declarator, or a member, by words.
pub fn bare(alloc: Global, line: &str) -> Result<String, AllocError> {
    let specified = specified(line);
    let faulty = has(line, "faulty");
    if has(line, "member") {
        return shown_outcome(alloc, &bare_member(alloc, 1, faulty, specified));
    }
    let fault = bare_declaration(
        alloc,
        BareParts {
            specified,
            faulty,
            scope: if has(line, "block") {
                ScopeKind::Block
            } else {
                ScopeKind::File
            },
            at: 1,
            storage_at: at_if(line, "register", 2),
            function_at: at_if(line, "inline", 3),
        },
    );
    shown_outcome(alloc, &fault)
}

/// What a declarator's name does, and what is stated of it; both also where it is refused.
pub fn declarator(alloc: Global, line: &str) -> Result<String, AllocError> {
    let decl = Declaring {
        is_typedef: has(line, "typedef"),
        is_function: has(line, "function"),
        is_extern: has(line, "extern"),
        has_init: has(line, "init"),
        has_body: has(line, "body"),
    };
    let role = role_name(role_of(decl, !has(line, "again")));
    let how = how_name(how_of(decl));
    let refused = how_name(refused_how(how_of(decl)));
    format!(in alloc; "{role} {how} {refused}")
}

/// Where the fault of a rule stands: with no specifier, and with one of each kind.
pub fn place(alloc: Global, line: &str) -> Result<String, AllocError> {
    let rule = match line.parse::<u16>() {
        Ok(rule) => rule,
        Err(_) => 0,
    };
    let bare = Places {
        begins: 1,
        storage: None,
        thread: None,
        function: None,
        align: None,
    };
    let full = Places {
        begins: 1,
        storage: Some(2),
        thread: Some(3),
        function: Some(4),
        align: Some(5),
    };
    let thread = Places {
        begins: 1,
        storage: None,
        thread: Some(3),
        function: None,
        align: None,
    };
    let a = place_of(bare, rule, 9);
    let b = place_of(full, rule, 9);
    let c = place_of(thread, rule, 9);
    format!(in alloc; "{a} {b} {c}")
}
