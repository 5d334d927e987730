// What stands in front of an expression: names, and tags with their members, each with the answer to the question for it.
use c_parser::{NameSet, parse_expr};
use elab_core::{ExprMeaning, elab_expr};
use elab_state::{Elab, Known, Wanted};
use scope_tables::{Anchor, Entity, EntityKind, Life, Linkage, ScopeKind, Scopes};
use shared_text::Name;
use std::alloc::{AllocError, Global};
use tok_data::{FileId, OutToken, TokId};
use tree_data::Expr;
use type_data::{
    CType, ItemName, Layout, Member, Members, Node, Qual, Space, TagId, TagInfo, TagKind, Tags,
    Value,
};
use type_rel::{UNQUALIFIED, layout};

// More tokens are no expression.
const MOST_TOKENS: usize = 2_000_000;

/// What stands in front of an expression, and the kind of scope in which it stands.
#[derive(Drop)]
pub struct Setting {
    pub known: Known,
    pub typedefs: Vec<Name>,
    pub tags: Tags,
    pub kind: ScopeKind,
    next: u32,
}

/// A name, and how its object is declared.
#[derive(Drop)]
pub struct Declared<'a> {
    pub name: &'a str,
    pub kind: EntityKind,
    pub life: Life,
    pub linkage: Linkage,
    pub value: Option<Value>,
}

fn item(alloc: Global, label: &str) -> Result<ItemName, AllocError> {
    let label = Name::from_str(alloc, label)?;
    Ok(ItemName { label, nth: 0 })
}

/// An empty one.
pub fn nothing(alloc: Global) -> Setting {
    Setting {
        known: Known::new(alloc),
        typedefs: Vec::new(alloc),
        tags: Tags::new(alloc),
        kind: ScopeKind::Block,
        next: 0,
    }
}

fn share_entity(alloc: Global, answer: &Option<Entity>) -> Result<Option<Entity>, AllocError> {
    match answer {
        Some(entity) => {
            let entity = entity.share(alloc)?;
            Ok(Some(entity))
        }
        None => Ok(None),
    }
}

fn names_of(alloc: Global, typedefs: &[Name]) -> Result<NameSet, AllocError> {
    let mut names = Vec::new(alloc);
    for name in typedefs {
        names.push(name.share()?)?;
    }
    Ok(NameSet::from_vec(names))
}

fn answer_all(
    alloc: Global,
    setting: &Setting,
    told: &mut Known,
    asked: &mut String,
    wanted: &[Wanted],
) -> Result<(), AllocError> {
    let mut parted = "";
    for one in wanted {
        asked.push_str(parted)?;
        match &one.space {
            Space::Members(id) => {
                let at = id.at;
                let text = format!(in alloc; "members {at}")?;
                asked.push_str(text.as_str())?;
            }
            Space::Tags => {
                asked.push_str("tag ")?;
                asked.push_str(one.name.as_str())?;
            }
            _ => asked.push_str(one.name.as_str())?,
        }
        parted = " ";
        let answer = match setting.known.get(one) {
            Some(answer) => share_entity(alloc, answer)?,
            None => None,
        };
        told.insert(one.share()?, answer)?;
    }
    asked.push_str("; ")?;
    Ok(())
}

/// An expression's meaning, and all that was asked for it.
#[derive(Drop)]
pub struct Meant {
    pub meaning: Option<ExprMeaning>,
    pub asked: String,
}

// The tree of an expression; none where the tokens spell none.
fn tree(alloc: Global, setting: &Setting, tokens: &[OutToken]) -> Result<Option<Expr>, AllocError> {
    if MOST_TOKENS < tokens.len() {
        return Ok(None);
    }
    let names = names_of(alloc, setting.typedefs.as_slice())?;
    match parse_expr(alloc, tokens, &names) {
        Ok(expr) => Ok(Some(expr)),
        Err(_) => Ok(None),
    }
}

fn scopes_of(alloc: Global, setting: &Setting) -> Result<Scopes, AllocError> {
    let mut scopes = Scopes::new(alloc);
    scopes.enter(setting.kind)?;
    Ok(scopes)
}

// Whether it has a meaning with what was told; else what is asked is told.
fn goes_on(
    alloc: Global,
    setting: &Setting,
    item: &ItemName,
    tokens: &[OutToken],
    expr: &Expr,
    scopes: &Scopes,
    told: &mut Known,
    out: &mut Meant,
) -> Result<bool, AllocError> {
    let result = elab_expr(alloc, item, tokens, expr, scopes, Tags::new(alloc), told)?;
    match result {
        Elab::Done(meaning) => {
            out.meaning = Some(meaning);
            Ok(false)
        }
        Elab::Need(wanted) => {
            answer_all(alloc, setting, told, &mut out.asked, wanted.as_slice())?;
            Ok(true)
        }
    }
}

fn elaborate(
    alloc: Global,
    setting: &Setting,
    tokens: &[OutToken],
    expr: &Expr,
    out: &mut Meant,
) -> Result<(), AllocError> {
    let scopes = scopes_of(alloc, setting)?;
    let item = item(alloc, "e")?;
    let mut told = Known::new(alloc);
    for _ in 0..1000 {
        if !goes_on(alloc, setting, &item, tokens, expr, &scopes, &mut told, out)? {
            return Ok(());
        }
    }
    Ok(())
}

/// What an expression means here; none where the tokens spell none.
pub fn elaborated(
    alloc: Global,
    setting: &Setting,
    tokens: &[OutToken],
) -> Result<Meant, AllocError> {
    let mut out = Meant {
        meaning: None,
        asked: String::new(alloc),
    };
    let expr = tree(alloc, setting, tokens)?;
    let Some(expr) = expr else {
        return Ok(out);
    };
    elaborate(alloc, setting, tokens, &expr, &mut out)?;
    Ok(out)
}

fn anchor(alloc: Global, at: u32) -> Result<Anchor, AllocError> {
    let file = FileId::from_name(Name::from_str(alloc, "front")?);
    Ok(Anchor::Local(TokId { file, at }))
}

fn put(
    alloc: Global,
    setting: &mut Setting,
    space: Space,
    name: &str,
    entity: Entity,
) -> Result<(), AllocError> {
    let name = Name::from_str(alloc, name)?;
    setting.known.insert(Wanted { space, name }, Some(entity))?;
    Ok(())
}

/// Declares a name of this type.
pub fn declare(
    alloc: Global,
    setting: &mut Setting,
    declared: Declared<'_>,
    ty: CType,
    qual: Qual,
) -> Result<(), AllocError> {
    let name = declared.name;
    setting.next = setting.next.saturating_add(1);
    let entity = Entity {
        name: Name::from_str(alloc, name)?,
        kind: declared.kind,
        ty,
        qual,
        linkage: declared.linkage,
        life: declared.life,
        value: declared.value,
        anchor: anchor(alloc, setting.next)?,
    };
    if let EntityKind::Typedef = entity.kind {
        setting.typedefs.push(Name::from_str(alloc, name)?)?;
    }
    put(alloc, setting, Space::Ordinary, name, entity)
}

fn tag_type(kind: TagKind, id: TagId) -> CType {
    match kind {
        TagKind::Enum => CType::of(Node::Enumerated(id)),
        _ => CType::of(Node::Tagged(id)),
    }
}

fn tag_entity(alloc: Global, name: &str, id: &TagId, info: &TagInfo) -> Result<Entity, AllocError> {
    Ok(Entity {
        name: Name::from_str(alloc, name)?,
        kind: EntityKind::Tag(id.share()?, info.share(alloc)?),
        ty: tag_type(info.kind, id.share()?),
        qual: UNQUALIFIED,
        linkage: Linkage::None,
        life: Life::Without,
        value: None,
        anchor: anchor(alloc, id.at)?,
    })
}

fn laid(
    alloc: Global,
    kind: TagKind,
    members: &[Member],
    tags: &Tags,
) -> Result<Option<Layout>, AllocError> {
    match kind {
        TagKind::Enum => Ok(None),
        TagKind::Struct => layout(alloc, TagKind::Struct, members, tags),
        TagKind::Union => layout(alloc, TagKind::Union, members, tags),
    }
}

fn new_id(alloc: Global, setting: &mut Setting) -> Result<TagId, AllocError> {
    setting.next = setting.next.saturating_add(1);
    Ok(TagId {
        item: item(alloc, "front")?,
        at: setting.next,
    })
}

// The tag of this name that was declared before.
fn named_before(alloc: Global, setting: &Setting, name: &str) -> Result<Option<TagId>, AllocError> {
    let wanted = Wanted {
        space: Space::Tags,
        name: Name::from_str(alloc, name)?,
    };
    match setting.known.get(&wanted) {
        Some(Some(entity)) => match &entity.kind {
            EntityKind::Tag(id, _) => Ok(Some(id.share()?)),
            _ => Ok(None),
        },
        _ => Ok(None),
    }
}

/// Declares a tag with these members, or without any.
pub fn declare_tag(
    alloc: Global,
    setting: &mut Setting,
    kind: TagKind,
    name: &str,
    members: Option<Vec<Member>>,
) -> Result<(), AllocError> {
    let id = match named_before(alloc, setting, name)? {
        Some(id) => id,
        None => new_id(alloc, setting)?,
    };
    let layout = match &members {
        Some(members) => laid(alloc, kind, members.as_slice(), &setting.tags)?,
        None => None,
    };
    let info = TagInfo {
        kind,
        name: Some(Name::from_str(alloc, name)?),
        members: match members {
            Some(members) => Some(Members::from_vec(alloc, members)?),
            None => None,
        },
        layout,
    };
    let named = tag_entity(alloc, name, &id, &info)?;
    put(alloc, setting, Space::Tags, name, named)?;
    let told = tag_entity(alloc, name, &id, &info)?;
    put(alloc, setting, Space::Members(id.share()?), "", told)?;
    setting.tags.insert(id, info)?;
    Ok(())
}
