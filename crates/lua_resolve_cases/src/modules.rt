//! Written by bench/example_modules.py: the modules of the examples.

/// examples/third/Module:Text.lua
pub const TEXT: &str = r#"-- Texts that several modules make.
local p = {}

function p.join(list, between)
  local text = ''
  for i, item in ipairs(list) do
    if i > 1 then text = text .. between end
    text = text .. item
  end
  return text
end

function p.cell(text, class)
  if class then return '<td class="' .. class .. '">' .. text .. '</td>' end
  return '<td>' .. text .. '</td>'
end

return p
"#;

/// examples/third/Module:Languages.lua
pub const LANGUAGES: &str = r#"-- The names of languages.
local data = mw.loadData('Module:Languages/data')
local p = {}

function p.name(code)
  local language = data[code]
  if not language then error('unknown language ' .. code, 2) end
  return language.name
end

-- {{#invoke:Languages|list}}: all of them
function p.list()
  local names = {}
  for code, language in pairs(data) do
    names[#names + 1] = code .. ': ' .. language.name
  end
  return require('Module:Text').join(names, '; ')
end

return p
"#;

/// examples/third/Module:Book.lua
pub const BOOK: &str = r#"require('strict')
local text = require('Module:Text')
local languages = require('Module:Languages')
local p = {}

-- {{#invoke:Book|row}} in a template: a row of the template's arguments
function p.row(frame)
  local args = frame:getParent().args
  local cells = {
    text.cell(args.title or frame:preprocess('{{PAGENAME}}')),
    text.cell(args.year or '?', 'year'),
  }
  if args.lang then
    cells[#cells + 1] = text.cell(languages.name(args.lang))
  end
  return '<tr>' .. text.join(cells, '') .. '</tr>'
end

-- {{#invoke:Book|links|TITLE|..}}: links, each by a template
function p.links(frame)
  local links = {}
  for i, title in ipairs(frame.args) do
    links[i] = frame:expandTemplate{title = 'Link', args = {title, n = i}}
  end
  return text.join(links, ', ')
end

return p
"#;

/// examples/third/Module:Languages%2Fdata.lua
pub const DATA: &str = r#"-- Data: read by mw.loadData once for a page, and never written.
return {
  de = {name = 'German'},
  en = {name = 'English'},
}
"#;

/// crates/wikiexpand/data/d/Module:Infobox.lua
pub const INFOBOX: &str = r#"require('strict')
local p = {}
local function row(box, label, value)
  if not value or value == '' then return end
  local tr = box:tag('tr')
  tr:tag('th'):attr('scope', 'row'):wikitext(label)
  tr:tag('td'):wikitext(value)
end
function p.main(frame)
  local args = frame:getParent().args
  local box = mw.html.create('table'):addClass('infobox'):css('width', '20em')
  box:tag('caption'):wikitext(args.name or mw.title.getCurrentTitle().text)
  row(box, 'Born', args.born)
  row(box, 'Fields', mw.text.listToText(mw.text.split(args.fields, '; ', true)))
  row(box, 'Died', args.died)
  return tostring(box)
end
return p
"#;
