//! Lists of extra tags.
ghost use Rattle.std.specs.Prelude.{◌≡◌, ◌≤◌, ◌<◌, ◌+◌, [], ◌∷◌, ◌++◌, length, IfOk, OnOk, OnErr, vec_len, vec_capacity};
ghost use Rattle.std.specs.List.{position_from};
ghost use Rattle.game_tree.specs.TagList.{is_named, tags_without, put_tag, with_tag};

use super::head::Tag;
use std::alloc::{AllocError, Global};
use std::marker::Model;

/// The extra tags of a head in their order. Contracts see a list of tags.
#[derive(Debug, Drop)]
pub struct Tags {
    list: Vec<Tag>,
}

impl Model for Tags {
    ghost use Rattle.std.specs.Prelude.{List};
    ghost use Rattle.game_tree.specs.declared.head.Tag.{Tag};

    ghost Value = { List Tag };

    ghost view = { λ tags. tags.list.items };
}

impl Tags {
    /// No tags.
    pub fn new(alloc: Global) -> Tags
        ensures empty { result ≡ [] }
    {
        Tags {
            list: Vec::new(alloc),
        }
    }

    /// These tags.
    pub fn from_vec(list: Vec<Tag>) -> Tags
        ensures same { result ≡ list.items }
    {
        Tags { list }
    }

    /// The tags, with the memory that they had.
    pub fn into_vec(self) -> Vec<Tag>
        ensures same { result.items ≡ self }
    {
        let Tags { list } = self;
        list
    }

    /// The tags in their order.
    pub fn as_slice(&self) -> &[Tag]
        ensures same { result.now ≡ self.now }
    {
        self.list.as_slice()
    }

    /// Adds `tag` as the last one. It fails only for want of memory, and then the tags are as before.
    pub fn push(&mut self, _alloc: Global, tag: Tag) -> Result<(), AllocError>
        ensures ok { OnOk result (self.new ≡ self.old ++ tag ∷ []) }
        ensures err { OnErr result (self.new ≡ self.old) }
    {
        self.list.push(tag)?;
        Ok(())
    }

    /// Removes all tags of this name.
    pub fn remove_named(&mut self, name: &[u8])
        ensures others { self.new ≡ tags_without name.now self.old }
    {
        retain_others(&mut self.list, name);
    }

    /// Sets a tag: it takes the place of the first of its name, or comes last, and one with an empty value removes all
    /// of its name. It fails only for want of memory, and then the tags are as before.
    pub fn set_named(&mut self, _alloc: Global, tag: Tag) -> Result<(), AllocError>
        ensures ok { OnOk result (self.new ≡ with_tag tag self.old) }
        ensures err { OnErr result (self.new ≡ self.old) }
    {
        self.list.reserve(1)?;
        set_reserved(&mut self.list, tag);
        Ok(())
    }

    /// Removes all tags of the name of `tag` and adds it as the last one, or changes nothing for want of memory.
    pub(crate) fn replace_named(&mut self, tag: Tag) -> Result<(), AllocError>
        ensures ok { OnOk result (self.new ≡ tags_without tag.name self.old ++ tag ∷ []) }
        ensures err { OnErr result (self.new ≡ self.old) }
    {
        self.list.reserve(1)?;
        replace_reserved(&mut self.list, tag);
        Ok(())
    }

    /// Sets `tag`, then replaces all tags of the name of `last` by it, or changes nothing for want of memory.
    pub(crate) fn set_and_replace(&mut self, tag: Tag, last: Tag) -> Result<(), AllocError>
        ensures ok { OnOk result (self.new ≡ tags_without last.name (with_tag tag self.old) ++ last ∷ []) }
        ensures err { OnErr result (self.new ≡ self.old) }
    {
        self.list.reserve(2)?;
        set_reserved(&mut self.list, tag);
        replace_reserved(&mut self.list, last);
        Ok(())
    }
}

// Sets a tag. The list has room for one more.
#[tactic(auto, unfolding(crate::specs::TagList::with_tag))]
fn set_reserved(list: &mut Vec<Tag>, tag: Tag)
    requires room { vec_len list.old < vec_capacity list.old }
    ensures items { list.new.items ≡ with_tag tag list.old.items }
    ensures len { vec_len list.new ≤ vec_len list.old + 1 }
    ensures capacity { vec_capacity list.new ≡ vec_capacity list.old }
{
    if tag.value.is_empty() {
        retain_others(list, tag.name.as_bytes());
    } else {
        put_reserved(list, tag);
    }
}

// Puts a tag into the place of the first of its name, or at the end. The list has room for one more.
#[tactic(auto, using(crate::proofs::TagListLemmas::putting))]
fn put_reserved(list: &mut Vec<Tag>, tag: Tag)
    requires room { vec_len list.old < vec_capacity list.old }
    ensures items { list.new.items ≡ put_tag tag list.old.items }
    ensures len { vec_len list.new ≤ vec_len list.old + 1 }
    ensures capacity { vec_capacity list.new ≡ vec_capacity list.old }
{
    match place_of(list.as_slice(), tag.name.as_bytes()) {
        Some(place) => list[place] = tag,
        None => list.push_reserved(tag),
    }
}

// Removes all tags of the name of `tag` and adds it as the last one. The list has room for one more.
fn replace_reserved(list: &mut Vec<Tag>, tag: Tag)
    requires room { vec_len list.old < vec_capacity list.old }
    ensures { list.new.items ≡ tags_without tag.name list.old.items ++ tag ∷ [] }
{
    retain_others(list, tag.name.as_bytes());
    list.push_reserved(tag);
}

// Removes all tags of this name.
fn retain_others(list: &mut Vec<Tag>, name: &[u8])
    ensures items { list.new.items ≡ tags_without name.now list.old.items }
    ensures len { vec_len list.new ≤ vec_len list.old }
    ensures capacity { vec_capacity list.new ≡ vec_capacity list.old }
{
    list.retain(|tag| !is_named(tag, name));
}

// Where the first tag of this name stands.
fn place_of(list: &[Tag], name: &[u8]) -> Option<usize>
    ensures { result ≡ position_from (is_named name.now) 0 list.now }
{
    let mut place = 0;
    for tag in list {
        if is_named(tag, name) {
            return Some(place);
        }
        place += 1;
    }
    None
}

// Whether the tag has this name.
pub(crate) fn is_named(tag: &Tag, name: &[u8]) -> bool
    ensures { result ≡ is_named name.now tag.now }
{
    tag.name.as_bytes() == name
}
